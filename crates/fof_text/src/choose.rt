//! The choice of names.

ghost use Rattle.std.specs.Prelude.{◌≡◌, ◌≤◌, ◌<◌, ◌+◌, ◌^◌, IfOk, Some, true, false, [], length};
ghost use Rattle.std.specs.Prelude.{List, ℕ};
ghost use Rattle.fof_text.specs.Names.{is_among, wanted_names};
ghost use Rattle.fof_text.specs.Names as spec;
ghost use Rattle.fof_text.specs.Uses.{use_at, IsChosen, IsFirstFree, Knows};
ghost use Rattle.fof_text.specs.declared.uses.Use.{Use};

use crate::uses::{Use, take, use_of};
use enc_base::{Name, NoMemory};
use fof_models::FofSymbol;
use itoa::Buffer;
use std::alloc::Global;
use std::collections::BTreeMap;

/// The bytes of a name, as a key.
fn key_of(alloc: Global, name: &[u8]) -> Result<Vec<u8>, NoMemory>
    ensures { IfOk result (λ key. key.items ≡ name.now) }
{
    Ok(name.to_vec(alloc)?)
}

/// The name followed by `_` and the number.
fn numbered(alloc: Global, name: &[u8], number: usize) -> Result<Vec<u8>, NoMemory>
    ensures { IfOk result (λ bytes. bytes.items ≡ spec.numbered name.now number) }
{
    let mut buffer = Buffer::new();
    let mut bytes = key_of(alloc, name)?;
    bytes.push(b'_')?;
    bytes.extend_from_slice(buffer.format(number).as_bytes())?;
    Ok(bytes)
}

/// The first number from one on and below a limit that makes the name a free one, or the limit.
fn free_number(
    alloc: Global,
    uses: &BTreeMap<Vec<u8>, Use>,
    name: &[u8],
    from: usize,
    limit: usize,
) -> Result<usize, NoMemory>
    ensures exact { from ≤ limit → IfOk result (λ k. IsFirstFree uses.now name.now from limit k) }
    ensures within { IfOk result (λ k. k ≤ limit) }
{
    for number in from..limit {
        let candidate = numbered(alloc, name, number)?;
        if use_of(uses, &candidate).is_none() {
            return Ok(number);
        }
    }
    Ok(limit)
}

/// Gives the wanted name to the first symbol that wants it.
fn choose_wanted(
    alloc: Global,
    uses: &mut BTreeMap<Vec<u8>, Use>,
    name: &[u8],
) -> Result<Name, NoMemory>
    ensures { (wanted earlier : List (List ℕ)) →
        Knows wanted earlier uses.old →
        is_among earlier name.now ≡ false →
        IfOk result (IsChosen wanted earlier name.now uses.new) }
{
    let chosen = Name::from_slice(alloc, name)?;
    let key = key_of(alloc, name)?;
    take(uses, key, Use { had: true, next: 0 })?;
    Ok(chosen)
}

/// Gives a numbered name to a symbol whose wanted name an earlier one has. Numbers below `next`
/// make no free name.
fn choose_numbered(
    alloc: Global,
    uses: &mut BTreeMap<Vec<u8>, Use>,
    name: &[u8],
    next: usize,
    limit: usize,
) -> Result<Name, NoMemory>
    requires { limit < 2 ^ 63 }
    ensures { (wanted earlier : List (List ℕ)) (how : Use) →
        Knows wanted earlier uses.old →
        use_at uses.old name.now ≡ Some how →
        how.had ≡ true →
        how.next ≡ next →
        limit ≡ length earlier + length wanted →
        IfOk result (IsChosen wanted earlier name.now uses.new) }
{
    let number = free_number(alloc, uses, name, next, limit)?;
    let bytes = numbered(alloc, name, number)?;
    let chosen = Name::from_slice(alloc, &bytes)?;
    let key = key_of(alloc, name)?;
    take(uses, bytes, Use { had: true, next: 0 })?;
    take(
        uses,
        key,
        Use {
            had: true,
            next: number + 1,
        },
    )?;
    Ok(chosen)
}

/// Chooses the name of a symbol. The limit is the number of earlier symbols and wanted names.
pub(crate) fn choose_name(
    alloc: Global,
    uses: &mut BTreeMap<Vec<u8>, Use>,
    name: &[u8],
    limit: usize,
) -> Result<Name, NoMemory>
    requires { limit < 2 ^ 63 }
    ensures { (wanted earlier : List (List ℕ)) →
        Knows wanted earlier uses.old →
        limit ≡ length earlier + length wanted →
        IfOk result (IsChosen wanted earlier name.now uses.new) }
{
    match use_of(uses, name) {
        Some(how) => {
            if how.had {
                choose_numbered(alloc, uses, name, how.next, limit)
            } else {
                choose_wanted(alloc, uses, name)
            }
        }
        None => choose_wanted(alloc, uses, name),
    }
}

/// Takes the names that symbols want.
pub(crate) fn take_wanted(
    alloc: Global,
    signature: &[FofSymbol],
) -> Result<BTreeMap<Vec<u8>, Use>, NoMemory>
    ensures { IfOk result (Knows (wanted_names signature.now) []) }
{
    let mut uses = BTreeMap::new(alloc);
    for symbol in signature {
        let key = key_of(alloc, symbol.wanted.as_slice())?;
        take(
            &mut uses,
            key,
            Use {
                had: false,
                next: 0,
            },
        )?;
    }
    Ok(uses)
}
