//! The words of a text, with the next one in hand.

ghost use Rattle.std.specs.Prelude.{◌≡◌, ◌-◌, ◌<◌, ◌^◌, IfOk, length, take, drop, is_some};
ghost use Rattle.tptp_words.specs.Text.{IsText};
ghost use Rattle.tptp_words.specs.Steps.{AllSpelled};
ghost use Rattle.tptp_words.specs.Words as words;
ghost use Rattle.tptp_phrases.specs.Readers.{goes_on, takes, seen, take_word, stray_cause, limit_cause, no_strays};
ghost use Rattle.tptp_syntax.specs.Strays as stray;
ghost use Rattle.tptp_syntax.specs.Descent as descent;
ghost use Rattle.tptp_syntax.specs.Ahead as spec;
ghost use Rattle.tptp_syntax.specs.Ahead.{Gives, cause, first_as, rest_of};

use crate::entry::StatedRole;
use crate::fault::Fault;
use crate::fixed::Fixed;
use crate::language::{Connective, Language};
use crate::spelled;
use enc_base::{Name, NoMemory};
use std::alloc::Global;
use std::marker::Model;
use tptp_words::{WordError, WordKind, Words};

/// What stands next: a word, or the end of the text, or the error because of which there is no
/// word.
#[derive(Clone, Copy, Debug)]
pub enum Next<'a> {
    Word {
        kind: WordKind,
        from: usize,
        spelling: &'a [u8],
    },
    End,
    Fault(WordError),
}

/// The words of a text that are left.
#[derive(Drop)]
pub struct Reader<'a> {
    text: &'a [u8],
    words: Words<'a>,
    next: Next<'a>,
}

impl<'a> Model for Reader<'a> {
    ghost use Rattle.tptp_words.specs.Scanning.{Left};
    ghost use Rattle.tptp_syntax.specs.Ahead.{ahead_of, IsHeld};

    ghost Value = { Left };

    ghost view = { λ r. ahead_of r.next r.words };

    ghost invariant = { λ r. IsHeld r.text.now r.next r.words };
}

/// The bytes of the text from one place up to another.
fn span_of(text: &[u8], from: usize, to: usize) -> &[u8]
    ensures { result.now ≡ take (to - from) (drop from text.now) }
{
    let (_, rest) = text.split_at(from.min(text.len()));
    let (span, _) = rest.split_at(to.saturating_sub(from).min(rest.len()));
    span
}

/// The next of the words, with its spelling.
fn next_of<'a>(text: &'a [u8], words: &mut Words<'a>) -> Next<'a>
    requires { AllSpelled text.now words.old.words }
    ensures next { spec.ahead_of result words.new ≡ words.old }
    ensures spelled { AllSpelled text.now words.new.words }
{
    match words.next() {
        Ok(Some(word)) => Next::Word {
            kind: word.kind,
            from: word.from,
            spelling: span_of(text, word.from, word.to),
        },
        Ok(None) => Next::End,
        Err(error) => Next::Fault(error),
    }
}

impl<'a> Reader<'a> {
    /// All words of the text.
    pub fn new(text: &'a [u8]) -> Reader<'a>
        ensures { IsText (length text.now) text.now result.words result.fault }
    {
        let mut words = Words::new(text);
        let next = next_of(text, &mut words);
        Reader { text, words, next }
    }

    /// So few words are left that a `usize` counts them, since each has a byte of the text.
    pub fn words_can_be_counted(&self)
        ensures { length (seen self.now) < 2 ^ 64 }
    {
        let _bytes = self.text.len();
    }

    /// Goes past the next word, if there is one.
    pub fn advance(&mut self)
        ensures { self.new ≡ rest_of self.old }
    {
        if let Next::Word { .. } = self.next {
            self.next = next_of(self.text, &mut self.words);
        }
    }

    /// Whether a word stands next.
    pub fn sees_word(&self) -> bool
        ensures { result ≡ goes_on descent.any_word (seen self.now) }
    {
        matches!(self.next, Next::Word { .. })
    }

    fn sees_mark(&self, mark: &[u8]) -> bool
        ensures { result ≡ goes_on (takes (words.mark mark.now)) (seen self.now) }
    {
        match self.next {
            Next::Word {
                kind: WordKind::Mark,
                spelling,
                ..
            } => spelled::same(spelling, mark),
            _ => false,
        }
    }

    fn sees_dollar(&self, word: &[u8]) -> bool
        ensures { result ≡ goes_on (takes (words.dollar word.now)) (seen self.now) }
    {
        match self.next {
            Next::Word {
                kind: WordKind::Dollar,
                spelling,
                ..
            } => spelled::same(spelling, word),
            _ => false,
        }
    }

    fn sees_keyword(&self, word: &[u8]) -> bool
        ensures { result ≡ goes_on (takes (words.keyword word.now)) (seen self.now) }
    {
        match self.next {
            Next::Word {
                kind: WordKind::Lower,
                spelling,
                ..
            } => spelled::same(spelling, word),
            _ => false,
        }
    }

    /// Whether this word stands next.
    pub fn sees(&self, word: Fixed) -> bool
        ensures { result ≡ goes_on (takes (spec.fixed word)) (seen self.now) }
    {
        match word {
            Fixed::Open => self.sees_mark(b"("),
            Fixed::Close => self.sees_mark(b")"),
            Fixed::OpenSquare => self.sees_mark(b"["),
            Fixed::CloseSquare => self.sees_mark(b"]"),
            Fixed::Comma => self.sees_mark(b","),
            Fixed::Dot => self.sees_mark(b"."),
            Fixed::Colon => self.sees_mark(b":"),
            Fixed::Equal => self.sees_mark(b"="),
            Fixed::Unequal => self.sees_mark(b"!="),
            Fixed::Not => self.sees_mark(b"~"),
            Fixed::And => self.sees_mark(b"&"),
            Fixed::Or => self.sees_mark(b"|"),
            Fixed::ForAll => self.sees_mark(b"!"),
            Fixed::Exists => self.sees_mark(b"?"),
            Fixed::TypeForAll => self.sees_mark(b"!>"),
            Fixed::Greater => self.sees_mark(b">"),
            Fixed::Star => self.sees_mark(b"*"),
            Fixed::Type => self.sees_keyword(b"type"),
            Fixed::Individuals => self.sees_dollar(b"$i"),
            Fixed::Truth => self.sees_dollar(b"$o"),
            Fixed::Types => self.sees_dollar(b"$tType"),
            Fixed::True => self.sees_dollar(b"$true"),
            Fixed::False => self.sees_dollar(b"$false"),
        }
    }

    /// Takes this word.
    pub fn expect(&mut self, word: Fixed) -> Result<(), Fault>
        ensures { Gives (take_word (spec.fixed word) self.old) result self.new }
    {
        if self.sees(word) {
            self.advance();
            Ok(())
        } else {
            Err(Fault::Syntax)
        }
    }

    fn first_name(&self, alloc: Global) -> Result<Option<Name>, NoMemory>
        ensures { IfOk result (λ name. name ≡ first_as words.name (seen self.now)) }
    {
        match self.next {
            Next::Word { kind, spelling, .. } => spelled::name_of(alloc, kind, spelling),
            _ => Ok(None),
        }
    }

    /// Takes a name.
    #[tactic(auto, using(crate::proofs::Taken::taken_first, crate::proofs::Taken::taken_none))]
    pub fn name(&mut self, alloc: Global) -> Result<Name, Fault>
        ensures { Gives (take_word words.name self.old) result self.new }
    {
        match self.first_name(alloc)? {
            Some(name) => {
                self.advance();
                Ok(name)
            }
            None => Err(Fault::Syntax),
        }
    }

    /// Whether a name stands next.
    pub fn sees_name(&self) -> bool
        ensures { result ≡ goes_on (takes words.name) (seen self.now) }
    {
        matches!(
            self.next,
            Next::Word {
                kind: WordKind::Lower | WordKind::Quoted,
                ..
            }
        )
    }

    fn first_variable(&self, alloc: Global) -> Result<Option<Name>, NoMemory>
        ensures { IfOk result (λ name. name ≡ first_as words.variable (seen self.now)) }
    {
        match self.next {
            Next::Word { kind, spelling, .. } => spelled::variable_of(alloc, kind, spelling),
            _ => Ok(None),
        }
    }

    /// Takes a variable.
    #[tactic(auto, using(crate::proofs::Taken::taken_first, crate::proofs::Taken::taken_none))]
    pub fn variable(&mut self, alloc: Global) -> Result<Name, Fault>
        ensures { Gives (take_word words.variable self.old) result self.new }
    {
        match self.first_variable(alloc)? {
            Some(name) => {
                self.advance();
                Ok(name)
            }
            None => Err(Fault::Syntax),
        }
    }

    /// Whether a variable stands next.
    pub fn sees_variable(&self) -> bool
        ensures { result ≡ goes_on (takes words.variable) (seen self.now) }
    {
        matches!(
            self.next,
            Next::Word {
                kind: WordKind::Upper,
                ..
            }
        )
    }

    fn first_label(&self, alloc: Global) -> Result<Option<Name>, NoMemory>
        ensures { IfOk result (λ label. label ≡ first_as stray.label (seen self.now)) }
    {
        match self.next {
            Next::Word { kind, spelling, .. } => spelled::label_of(alloc, kind, spelling),
            _ => Ok(None),
        }
    }

    /// Takes a label.
    #[tactic(auto, using(crate::proofs::Taken::taken_first, crate::proofs::Taken::taken_none))]
    pub fn label(&mut self, alloc: Global) -> Result<Name, Fault>
        ensures { Gives (take_word stray.label self.old) result self.new }
    {
        match self.first_label(alloc)? {
            Some(label) => {
                self.advance();
                Ok(label)
            }
            None => Err(Fault::Syntax),
        }
    }

    fn first_language(&self) -> Option<Language>
        ensures { result ≡ first_as stray.language (seen self.now) }
    {
        match self.next {
            Next::Word { kind, spelling, .. } => spelled::language_of(kind, spelling),
            _ => None,
        }
    }

    /// Takes a language.
    #[tactic(auto, using(crate::proofs::Taken::taken_first, crate::proofs::Taken::taken_none))]
    pub fn language(&mut self) -> Result<Language, Fault>
        ensures { Gives (take_word stray.language self.old) result self.new }
    {
        match self.first_language() {
            Some(language) => {
                self.advance();
                Ok(language)
            }
            None => Err(Fault::Syntax),
        }
    }

    /// Whether a language stands next.
    #[tactic(auto, using(crate::proofs::Taken::known_goes_on))]
    pub fn sees_language(&self) -> bool
        ensures { result ≡ goes_on (takes stray.language) (seen self.now) }
    {
        self.first_language().is_some()
    }

    fn first_role(&self) -> Option<StatedRole>
        ensures { result ≡ first_as stray.role (seen self.now) }
    {
        match self.next {
            Next::Word { kind, spelling, .. } => spelled::role_of(kind, spelling),
            _ => None,
        }
    }

    /// Takes a role.
    #[tactic(auto, using(crate::proofs::Taken::taken_first, crate::proofs::Taken::taken_none))]
    pub fn role(&mut self) -> Result<StatedRole, Fault>
        ensures { Gives (take_word stray.role self.old) result self.new }
    {
        match self.first_role() {
            Some(role) => {
                self.advance();
                Ok(role)
            }
            None => Err(Fault::Syntax),
        }
    }

    /// Whether a role stands next.
    #[tactic(auto, using(crate::proofs::Taken::known_goes_on))]
    pub fn sees_role(&self) -> bool
        ensures { result ≡ goes_on (takes stray.role) (seen self.now) }
    {
        self.first_role().is_some()
    }

    fn first_connective(&self) -> Option<Connective>
        ensures { result ≡ first_as stray.connective (seen self.now) }
    {
        match self.next {
            Next::Word { kind, spelling, .. } => spelled::connective_of(kind, spelling),
            _ => None,
        }
    }

    /// Takes a connective that joins two formulas.
    #[tactic(auto, using(crate::proofs::Taken::taken_first, crate::proofs::Taken::taken_none))]
    pub fn connective(&mut self) -> Result<Connective, Fault>
        ensures { Gives (take_word stray.connective self.old) result self.new }
    {
        match self.first_connective() {
            Some(connective) => {
                self.advance();
                Ok(connective)
            }
            None => Err(Fault::Syntax),
        }
    }

    /// Whether a connective that joins two formulas stands next.
    #[tactic(auto, using(crate::proofs::Taken::known_goes_on))]
    pub fn sees_connective(&self) -> bool
        ensures { result ≡ goes_on (takes stray.connective) (seen self.now) }
    {
        self.first_connective().is_some()
    }

    /// Why no language stands next.
    pub fn stray_language(&self) -> Fault
        ensures { cause result ≡ stray_cause stray.stray_language (seen self.now) }
    {
        match self.next {
            Next::Word { kind, spelling, .. } => spelled::stray_language_of(kind, spelling),
            _ => Fault::Syntax,
        }
    }

    /// Why no role of this language stands next.
    pub fn stray_role(&self, language: Language) -> Fault
        ensures { cause result ≡ stray_cause (stray.stray_role language) (seen self.now) }
    {
        match self.next {
            Next::Word { kind, spelling, .. } => spelled::stray_role_of(language, kind, spelling),
            _ => Fault::Syntax,
        }
    }

    /// Why no type stands next.
    pub fn stray_type(&self) -> Fault
        ensures { cause result ≡ stray_cause stray.stray_type (seen self.now) }
    {
        match self.next {
            Next::Word { kind, spelling, .. } => spelled::stray_type_of(kind, spelling),
            _ => Fault::Syntax,
        }
    }

    /// Why no term and no atom stands next.
    pub fn stray_term(&self) -> Fault
        ensures { cause result ≡ stray_cause stray.stray_term (seen self.now) }
    {
        match self.next {
            Next::Word { kind, spelling, .. } => spelled::stray_term_of(kind, spelling),
            _ => Fault::Syntax,
        }
    }

    /// The error that stands next.
    pub fn error(&self) -> Option<WordError>
        ensures { result ≡ spec.fault_first self.now.words self.now.fault }
    {
        match self.next {
            Next::Fault(error) => Some(error),
            _ => None,
        }
    }

    /// Where the next word begins.
    pub fn place(&self) -> Option<usize>
        ensures { result ≡ spec.place_first self.now.words }
    {
        match self.next {
            Next::Word { from, .. } => Some(from),
            _ => None,
        }
    }
}
