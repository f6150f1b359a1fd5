//! The texts of codes.
ghost use Rattle.std.specs.Prelude.{◌≡◌, IfOk};
ghost use Rattle.xq_ast.specs.CodeText.{code_text, kind_name};
ghost use Rattle.xq_ast.specs.CodeWords.{IsWord};

use crate::code::{Code, SpentKind};
use crate::memory::NoMemory;
use crate::refusal::PyxRefusal;
use crate::text::Str;
use std::alloc::Global;

impl SpentKind {
    /// The word for what is spent.
    pub fn name(self) -> &'static str
        ensures { result.now ≡ kind_name self }
    {
        match self {
            SpentKind::Commit => "commit",
            SpentKind::Generation => "generation",
            SpentKind::Page => "page",
            SpentKind::Slot => "slot",
            SpentKind::Log => "log",
        }
    }
}

fn pyx_text(alloc: Global, why: PyxRefusal, line: u64) -> Result<Str, NoMemory>
    ensures { IfOk result (λ s. s ≡ code_text (Code.Pyx why line)) }
{
    let name = why.name();
    Ok(Str::from_string(format!(in alloc; "Pyx {name} {line}")?))
}

fn spent_text(alloc: Global, kind: SpentKind, number: u64) -> Result<Str, NoMemory>
    ensures { IfOk result (λ s. s ≡ code_text (Code.Spent kind number)) }
{
    let name = kind.name();
    Ok(Str::from_string(format!(in alloc; "Spent {name} {number}")?))
}

fn damaged_text(alloc: Global, commit: u64, ordinal: u64, page: u64) -> Result<Str, NoMemory>
    ensures { IfOk result (λ s. s ≡ code_text (Code.Damaged commit ordinal page)) }
{
    Ok(Str::from_string(format!(in alloc; "Damaged {commit} {ordinal} {page}")?))
}

impl Code {
    /// The first word of the code's text, which is the whole text where it has no number.
    pub fn word(&self) -> &'static str
        ensures { IsWord self.now → result.now ≡ code_text self.now }
    {
        match self {
            Code::XPST0003 => "XPST0003",
            Code::XPST0008 => "XPST0008",
            Code::XPST0017 => "XPST0017",
            Code::XPDY0002 => "XPDY0002",
            Code::XPTY0004 => "XPTY0004",
            Code::XPTY0019 => "XPTY0019",
            Code::XPTY0020 => "XPTY0020",
            Code::XQTY0024 => "XQTY0024",
            Code::XQDY0025 => "XQDY0025",
            Code::FOAR0001 => "FOAR0001",
            Code::FOAR0002 => "FOAR0002",
            Code::FODC0002 => "FODC0002",
            Code::FORG0001 => "FORG0001",
            Code::FORG0006 => "FORG0006",
            Code::TooLong => "TooLong",
            Code::NestedTooDeep => "NestedTooDeep",
            Code::BadName => "BadName",
            Code::NoTransaction => "NoTransaction",
            Code::InTransaction => "InTransaction",
            Code::ReadOnly => "ReadOnly",
            Code::Updating => "Updating",
            Code::Exists => "Exists",
            Code::TooDeep => "TooDeep",
            Code::TooManyNodes => "TooManyNodes",
            Code::TooMuchText => "TooMuchText",
            Code::TooManyItems => "TooManyItems",
            Code::ReplyTooLong => "ReplyTooLong",
            Code::NoMemory => "NoMemory",
            Code::Failed { .. } => "Failed",
            Code::InDoubt { .. } => "InDoubt",
            Code::Pyx { .. } => "Pyx",
            Code::Spent { .. } => "Spent",
            Code::Damaged { .. } => "Damaged",
        }
    }

    /// The text of the code. A mark is not in it.
    #[tactic(auto, using(crate::proofs::Words::word_of_the_rest))]
    pub fn text(&self, alloc: Global) -> Result<Str, NoMemory>
        ensures { IfOk result (λ s. s ≡ code_text self.now) }
    {
        match self {
            Code::Pyx { why, line } => pyx_text(alloc, *why, *line),
            Code::Spent { kind, number } => spent_text(alloc, *kind, *number),
            Code::Damaged {
                commit,
                ordinal,
                page,
            } => damaged_text(alloc, *commit, *ordinal, *page),
            word => Str::of(alloc, word.word()),
        }
    }
}
