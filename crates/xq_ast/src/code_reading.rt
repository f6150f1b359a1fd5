//! The code that a text is.
ghost use Rattle.std.specs.Prelude.{false, ◌≡◌, ◌≢◌, ℕ, List, ◌∷◌, ◌++◌, ◌<◌, ◌^◌, length, slice_index, IsTrue, ◌↔◌, IsNone, IfSome, MatchOption};
ghost use Rattle.std.specs.Fmt.{decimal};
ghost use Rattle.xq_ast.specs.CodeText.{code_text, refusal_name, kind_name, InRange, HasNoMark, without_mark};
ghost use Rattle.xq_ast.specs.CodeWords.{IsWord, IsCut, AreWords, Misses, has_space};

use crate::code::{Code, Mark, SpentKind};
use crate::refusal::PyxRefusal;
use crate::text::Str;

const NO_MARK: Mark = Mark {
    before: 0,
    after: 0,
};

/// The codes without numbers.
const WORDS: [Code; 30] = [
    Code::XPST0003,
    Code::XPST0008,
    Code::XPST0017,
    Code::XPDY0002,
    Code::XPTY0004,
    Code::XPTY0019,
    Code::XPTY0020,
    Code::XQTY0024,
    Code::XQDY0025,
    Code::FOAR0001,
    Code::FOAR0002,
    Code::FODC0002,
    Code::FORG0001,
    Code::FORG0006,
    Code::TooLong,
    Code::NestedTooDeep,
    Code::BadName,
    Code::NoTransaction,
    Code::InTransaction,
    Code::ReadOnly,
    Code::Updating,
    Code::Exists,
    Code::TooDeep,
    Code::TooManyNodes,
    Code::TooMuchText,
    Code::TooManyItems,
    Code::ReplyTooLong,
    Code::NoMemory,
    Code::Failed { mark: NO_MARK },
    Code::InDoubt { mark: NO_MARK },
];

/// Every refusal of a PYX line.
const REFUSALS: [PyxRefusal; 9] = [
    PyxRefusal::BadLine,
    PyxRefusal::BadName,
    PyxRefusal::EndMismatch,
    PyxRefusal::AttributeLate,
    PyxRefusal::AttributeTwice,
    PyxRefusal::TooDeep,
    PyxRefusal::TooManyNodes,
    PyxRefusal::TooMuchText,
    PyxRefusal::Unclosed,
];

/// Every kind of number that can be spent.
const KINDS: [SpentKind; 5] = [
    SpentKind::Commit,
    SpentKind::Generation,
    SpentKind::Page,
    SpentKind::Slot,
    SpentKind::Log,
];

/// The first of these codes that has this text.
fn code_among(codes: &[Code], text: &str) -> Option<Code>
    requires { AreWords codes.now }
    ensures found { IfSome result (λ c. (code_text c ≡ text.now) × HasNoMark c) }
    ensures none { IsNone result → Misses code_text text.now codes.now }
{
    for code in codes {
        if code.word() == text {
            return Some(*code);
        }
    }
    None
}

fn word_code(text: &str) -> Option<Code>
    ensures found { IfSome result (λ c. (code_text c ≡ text.now) × HasNoMark c) }
    ensures none { IsNone result → (c : Code) → IsWord c → code_text c ≢ text.now }
{
    code_among(&WORDS, text)
}

/// The first of these refusals that has this name.
fn refusal_among(refusals: &[PyxRefusal], name: &str) -> Option<PyxRefusal>
    ensures found { IfSome result (λ why. refusal_name why ≡ name.now) }
    ensures none { IsNone result → Misses refusal_name name.now refusals.now }
{
    for why in refusals {
        if why.name() == name {
            return Some(*why);
        }
    }
    None
}

fn refusal_of(name: &str) -> Option<PyxRefusal>
    ensures found { IfSome result (λ why. refusal_name why ≡ name.now) }
    ensures none { IsNone result → (why : PyxRefusal) → refusal_name why ≢ name.now }
{
    refusal_among(&REFUSALS, name)
}

/// The first of these kinds that has this name.
fn kind_among(kinds: &[SpentKind], name: &str) -> Option<SpentKind>
    ensures found { IfSome result (λ kind. kind_name kind ≡ name.now) }
    ensures none { IsNone result → Misses kind_name name.now kinds.now }
{
    for kind in kinds {
        if kind.name() == name {
            return Some(*kind);
        }
    }
    None
}

fn kind_of(name: &str) -> Option<SpentKind>
    ensures found { IfSome result (λ kind. kind_name kind ≡ name.now) }
    ensures none { IsNone result → (kind : SpentKind) → kind_name kind ≢ name.now }
{
    kind_among(&KINDS, name)
}

/// Whether a number may begin so: with no sign, and with a zero only where it is 0.
fn begins_as_number(bytes: &[u8]) -> bool
    ensures { IsTrue result ↔ ((slice_index bytes.now 0 ≢ 43) × (slice_index bytes.now 0 ≡ 48 → length bytes.now ≡ 1)) }
{
    match bytes {
        [] => true,
        [first] => *first != b'+',
        [first, _, ..] => *first != b'+' && *first != b'0',
    }
}

/// The number of 64 bits that is written so in decimal, without a sign and without leading zeros.
pub fn number_of(text: &str) -> Option<u64>
    ensures found { IfSome result (λ n. decimal n ≡ text.now) }
    ensures none { IsNone result → (n : ℕ) → n < 2 ^ 64 → decimal n ≢ text.now }
{
    if !begins_as_number(text.as_bytes()) {
        return None;
    }
    match text.parse::<u64>() {
        Ok(number) => Some(number),
        Err(_) => None,
    }
}

/// What stands before the first space, and what behind it; none where there is no space.
pub fn cut(text: &str) -> Option<(&str, &str)>
    ensures { MatchOption result (has_space text.now ≡ false) (λ x. IsCut text.now x.0.now x.1.now) }
{
    text.split_once(' ')
}

/// What stands behind the first word, where that is `word`.
fn behind_word<'a>(text: &'a str, word: &str) -> Option<&'a str>
    requires { has_space word.now ≡ false }
    ensures { MatchOption result ((rest : List ℕ) → text.now ≢ word.now ++ 32 ∷ rest) (λ rest. text.now ≡ word.now ++ 32 ∷ rest.now) }
{
    match cut(text) {
        Some((first, rest)) => { if first == word { Some(rest) } else { None } }
        None => None,
    }
}

#[derive(Drop)]
struct NamedNumber<'a> {
    name: &'a str,
    number: u64,
}

/// A name, a space and a number.
fn named_number(text: &str) -> Option<NamedNumber<'_>>
    ensures found { IfSome result (λ x. text.now ≡ x.name.now ++ 32 ∷ decimal x.number) }
    ensures none { IsNone result → (name : List ℕ) (n : ℕ) → has_space name ≡ false → n < 2 ^ 64 → name ++ 32 ∷ decimal n ≢ text.now }
    ensures apart { IfSome result (λ x. has_space x.name.now ≡ false) }
{
    let (name, digits) = cut(text)?;
    let number = number_of(digits)?;
    Some(NamedNumber { name, number })
}

fn pyx_code(text: &str) -> Option<Code>
    ensures found { IfSome result (λ c. (code_text c ≡ text.now) × HasNoMark c) }
    ensures none { IsNone result → (why : PyxRefusal) (line : ℕ) → line < 2 ^ 64 → code_text (Code.Pyx why line) ≢ text.now }
{
    let named = named_number(behind_word(text, "Pyx")?)?;
    let why = refusal_of(named.name)?;
    Some(Code::Pyx {
        why,
        line: named.number,
    })
}

fn spent_code(text: &str) -> Option<Code>
    ensures found { IfSome result (λ c. (code_text c ≡ text.now) × HasNoMark c) }
    ensures none { IsNone result → (kind : SpentKind) (number : ℕ) → number < 2 ^ 64 → code_text (Code.Spent kind number) ≢ text.now }
{
    let named = named_number(behind_word(text, "Spent")?)?;
    let kind = kind_of(named.name)?;
    Some(Code::Spent {
        kind,
        number: named.number,
    })
}

fn damaged_code(text: &str) -> Option<Code>
    ensures found { IfSome result (λ c. (code_text c ≡ text.now) × HasNoMark c) }
    ensures none { IsNone result → (commit ordinal page : ℕ) → commit < 2 ^ 64 → ordinal < 2 ^ 64 → page < 2 ^ 64 → code_text (Code.Damaged commit ordinal page) ≢ text.now }
{
    let (commit, rest) = cut(behind_word(text, "Damaged")?)?;
    let last = named_number(rest)?;
    let commit = number_of(commit)?;
    let ordinal = number_of(last.name)?;
    Some(Code::Damaged {
        commit,
        ordinal,
        page: last.number,
    })
}

impl Code {
    /// The code with this text, a mark in it going from 0 to 0. None exactly where no code has
    /// this text.
    pub fn of_text(text: &Str) -> Option<Code>
        ensures found { IfSome result (λ c. (code_text c ≡ text.now) × HasNoMark c) }
        ensures none { IsNone result → (c : Code) → InRange c → code_text c ≢ text.now }
    {
        let text = text.as_str();
        if let Some(code) = word_code(text) {
            return Some(code);
        }
        if let Some(code) = pyx_code(text) {
            return Some(code);
        }
        if let Some(code) = spent_code(text) {
            return Some(code);
        }
        damaged_code(text)
    }
}

/// Two codes with one text are the same code, but for a mark.
#[tactic(auto, using(crate::proofs::Law::same_code))]
pub fn text_determines_code()
    ensures { (a b : Code) → InRange a → InRange b → code_text a ≡ code_text b → without_mark a ≡ without_mark b }
{}
