//! The words of a text, with the next one in hand.

ghost use Rattle.std.specs.Prelude.{◌≡◌, ◌-◌, ◌↔◌, [], None, IsTrue, IfOk, length, take, drop};
ghost use Rattle.tptp_words.specs.Text.{IsText};
ghost use Rattle.tptp_words.specs.Steps.{AllSpelled};
ghost use Rattle.tptp_words.specs.Words as words;
ghost use Rattle.tptp_phrases.specs.Readers.{goes_on, takes, seen, take_word};
ghost use Rattle.model_tables.specs.Grammar as grammar;
ghost use Rattle.model_tables.specs.Ahead as spec;
ghost use Rattle.model_tables.specs.Ahead.{Gives, first_as, rest_of, place_left};

use crate::fault::Fault;
use crate::form::{Form, Kind};
use crate::spelled;
use enc_base::{Name, NoMemory};
use std::alloc::Global;
use std::marker::Model;
use tptp_words::{WordError, WordKind, Words};

/// What stands next: a word, or the end of the text, or the error because of which there is no
/// word.
#[derive(Clone, Copy, Debug)]
pub enum Next<'a> {
    Word {
        kind: WordKind,
        from: usize,
        spelling: &'a [u8],
    },
    End,
    Fault(WordError),
}

/// The words of a text that are left.
#[derive(Drop)]
pub struct Reader<'a> {
    text: &'a [u8],
    words: Words<'a>,
    next: Next<'a>,
}

impl<'a> Model for Reader<'a> {
    ghost use Rattle.tptp_words.specs.Scanning.{Left};
    ghost use Rattle.tptp_words.specs.Steps.{AllSpelled};
    ghost use Rattle.model_tables.specs.Ahead.{ahead_of};

    ghost Value = { Left };

    ghost view = { λ r. ahead_of r.next r.words };

    ghost invariant = { λ r. AllSpelled r.text.now r.words.words };
}

/// The bytes of the text from one place up to another.
fn span_of(text: &[u8], from: usize, to: usize) -> &[u8]
    ensures { result.now ≡ take (to - from) (drop from text.now) }
{
    let (_, rest) = text.split_at(from.min(text.len()));
    let (span, _) = rest.split_at(to.saturating_sub(from).min(rest.len()));
    span
}

/// The next of the words, with its spelling.
fn next_of<'a>(text: &'a [u8], words: &mut Words<'a>) -> Next<'a>
    requires { AllSpelled text.now words.old.words }
    ensures next { spec.ahead_of result words.new ≡ words.old }
    ensures spelled { AllSpelled text.now words.new.words }
{
    match words.next() {
        Ok(Some(word)) => Next::Word {
            kind: word.kind,
            from: word.from,
            spelling: span_of(text, word.from, word.to),
        },
        Ok(None) => Next::End,
        Err(error) => Next::Fault(error),
    }
}

impl<'a> Reader<'a> {
    /// All words of the text.
    pub fn new(text: &'a [u8]) -> Reader<'a>
        ensures { IsText (length text.now) text.now result.words result.fault }
    {
        let mut words = Words::new(text);
        let next = next_of(text, &mut words);
        Reader { text, words, next }
    }

    /// Goes past the next word, if there is one.
    pub fn advance(&mut self)
        ensures { self.new ≡ rest_of self.old }
    {
        if let Next::Word { .. } = self.next {
            self.next = next_of(self.text, &mut self.words);
        }
    }

    /// Whether a word stands next.
    pub fn sees_word(&self) -> bool
        ensures { result ≡ goes_on spec.any_word (seen self.now) }
    {
        matches!(self.next, Next::Word { .. })
    }

    /// Whether nothing more stands in the text.
    pub fn is_ended(&self) -> bool
        ensures { IsTrue result ↔ (self.now ≡ record { words = []; fault = None }) }
    {
        matches!(self.next, Next::End)
    }

    fn sees_mark(&self, mark: &[u8]) -> bool
        ensures { result ≡ goes_on (takes (words.mark mark.now)) (seen self.now) }
    {
        match self.next {
            Next::Word {
                kind: WordKind::Mark,
                spelling,
                ..
            } => spelled::same(spelling, mark),
            _ => false,
        }
    }

    /// Takes this mark.
    #[tactic(auto, using(crate::proofs::Taken::unit_taken, crate::proofs::Taken::not_taken))]
    pub fn take_mark(&mut self, mark: &[u8]) -> Result<(), Fault>
        ensures { Gives (take_word (words.mark mark.now) self.old) result self.new }
    {
        if self.sees_mark(mark) {
            self.advance();
            Ok(())
        } else {
            Err(Fault::Syntax)
        }
    }

    fn sees_keyword(&self, word: &[u8]) -> bool
        ensures { result ≡ goes_on (takes (words.keyword word.now)) (seen self.now) }
    {
        match self.next {
            Next::Word {
                kind: WordKind::Lower,
                spelling,
                ..
            } => spelled::same(spelling, word),
            _ => false,
        }
    }

    /// Takes this Lower word.
    #[tactic(auto, using(crate::proofs::Taken::unit_taken, crate::proofs::Taken::not_taken))]
    pub fn take_keyword(&mut self, word: &[u8]) -> Result<(), Fault>
        ensures { Gives (take_word (words.keyword word.now) self.old) result self.new }
    {
        if self.sees_keyword(word) {
            self.advance();
            Ok(())
        } else {
            Err(Fault::Syntax)
        }
    }

    fn sees_format(&self) -> bool
        ensures { result ≡ goes_on (takes grammar.format) (seen self.now) }
    {
        match self.next {
            Next::Word {
                kind: WordKind::Number,
                spelling,
                ..
            } => spelled::same(spelling, b"1"),
            _ => false,
        }
    }

    /// Takes the number of the format.
    #[tactic(auto, using(crate::proofs::Taken::unit_taken, crate::proofs::Taken::not_taken))]
    pub fn take_format(&mut self) -> Result<(), Fault>
        ensures { Gives (take_word grammar.format self.old) result self.new }
    {
        if self.sees_format() {
            self.advance();
            Ok(())
        } else {
            Err(Fault::Syntax)
        }
    }

    /// The number that stands next, if one does.
    pub fn first_number(&self) -> Option<u32>
        ensures { result ≡ first_as grammar.number (seen self.now) }
    {
        match self.next {
            Next::Word { kind, spelling, .. } => spelled::number_of(kind, spelling),
            _ => None,
        }
    }

    /// Takes a number.
    #[tactic(auto, using(crate::proofs::Taken::taken_first, crate::proofs::Taken::taken_none))]
    pub fn take_number(&mut self) -> Result<u32, Fault>
        ensures { Gives (take_word grammar.number self.old) result self.new }
    {
        match self.first_number() {
            Some(number) => {
                self.advance();
                Ok(number)
            }
            None => Err(Fault::Syntax),
        }
    }

    fn first_kind(&self, form: Form) -> Option<Kind>
        ensures { result ≡ first_as (grammar.item_kind form) (seen self.now) }
    {
        match self.next {
            Next::Word { kind, spelling, .. } => spelled::item_kind_of(form, kind, spelling),
            _ => None,
        }
    }

    /// Takes the first word of an item.
    #[tactic(auto, using(crate::proofs::Taken::taken_first, crate::proofs::Taken::taken_none))]
    pub fn take_kind(&mut self, form: Form) -> Result<Kind, Fault>
        ensures { Gives (take_word (grammar.item_kind form) self.old) result self.new }
    {
        match self.first_kind(form) {
            Some(kind) => {
                self.advance();
                Ok(kind)
            }
            None => Err(Fault::Syntax),
        }
    }

    fn first_name(&self, alloc: Global, item: Kind) -> Result<Option<Name>, NoMemory>
        ensures { IfOk result (λ name. name ≡ first_as (grammar.item_name item) (seen self.now)) }
    {
        match self.next {
            Next::Word { kind, spelling, .. } => match item {
                Kind::Constructor => spelled::constructor_name_of(alloc, kind, spelling),
                _ => spelled::name_of(alloc, kind, spelling),
            },
            _ => Ok(None),
        }
    }

    /// Takes the name of an item of this kind.
    #[tactic(auto, using(crate::proofs::Taken::taken_first, crate::proofs::Taken::taken_none))]
    pub fn take_name(&mut self, alloc: Global, item: Kind) -> Result<Name, Fault>
        ensures { Gives (take_word (grammar.item_name item) self.old) result self.new }
    {
        match self.first_name(alloc, item)? {
            Some(name) => {
                self.advance();
                Ok(name)
            }
            None => Err(Fault::Syntax),
        }
    }

    /// Where the next word begins, or why there is none, in a text of `total` bytes.
    pub fn place(&self, total: usize) -> usize
        ensures { result ≡ place_left total self.now.words self.now.fault }
    {
        match self.next {
            Next::Word { from, .. } => from,
            Next::End => total,
            Next::Fault(WordError::BadByte { at }) => at,
            Next::Fault(WordError::Unclosed { at }) => at,
        }
    }
}
