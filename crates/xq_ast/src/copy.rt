//! Copies of lists, names, tokens and calls.
ghost use Rattle.std.specs.Prelude.{◌≡◌, IfOk};

use crate::StrList;
use crate::call::{Call, CallText};
use crate::memory::NoMemory;
use crate::need::{Need, NeedList};
use crate::sequence::Sequence;
use crate::step::{PathStep, PathTest, Test};
use crate::text::Str;
use crate::token::{Token, TokenList};
use crate::tree::{Sign, SignList};
use std::alloc::Global;

impl StrList {
    pub fn copy(&self) -> Result<StrList, NoMemory>
        ensures { IfOk result (λ all. all ≡ self.now) }
    {
        let mut all = Sequence::new(self.allocator());
        for text in self.as_slice() {
            all.push(text.copy()?)?;
        }
        Ok(all)
    }
}

impl NeedList {
    pub fn copy(&self) -> Result<NeedList, NoMemory>
        ensures { IfOk result (λ all. all ≡ self.now) }
    {
        let mut all = Sequence::new(self.allocator());
        for need in self.as_slice() {
            all.push(need.copy()?)?;
        }
        Ok(all)
    }
}

impl TokenList {
    pub fn copy(&self) -> Result<TokenList, NoMemory>
        ensures { IfOk result (λ all. all ≡ self.now) }
    {
        let mut all = Sequence::new(self.allocator());
        for token in self.as_slice() {
            all.push(token.copy()?)?;
        }
        Ok(all)
    }
}

impl PathTest {
    pub fn copy(&self) -> Result<PathTest, NoMemory>
        ensures { IfOk result (λ all. all ≡ self.now) }
    {
        let mut all = Sequence::new(self.allocator());
        for step in self.as_slice() {
            all.push(step.copy()?)?;
        }
        Ok(all)
    }
}

impl SignList {
    pub fn copy(&self) -> Result<SignList, NoMemory>
        ensures { IfOk result (λ all. all ≡ self.now) }
    {
        let mut all = Sequence::new(self.allocator());
        for sign in self.as_slice() {
            all.push(*sign)?;
        }
        Ok(all)
    }
}

pub(crate) fn copy_name(name: &Option<Str>) -> Result<Option<Str>, NoMemory>
    ensures { IfOk result (λ n. n ≡ name.now) }
{
    match name {
        None => Ok(None),
        Some(name) => Ok(Some(name.copy()?)),
    }
}

impl Test {
    pub fn copy(&self) -> Result<Test, NoMemory>
        ensures { IfOk result (λ c. c ≡ self.now) }
    {
        match self {
            Test::Name { name } => Ok(Test::Name {
                name: copy_name(name)?,
            }),
            Test::AnyNode => Ok(Test::AnyNode),
            Test::Text => Ok(Test::Text),
            Test::Pi => Ok(Test::Pi),
        }
    }
}

impl PathStep {
    pub fn copy(&self) -> Result<PathStep, NoMemory>
        ensures { IfOk result (λ c. c ≡ self.now) }
    {
        Ok(PathStep {
            deep: self.deep,
            attribute: self.attribute,
            name: copy_name(&self.name)?,
        })
    }
}

impl Need {
    pub fn copy(&self) -> Result<Need, NoMemory>
        ensures { IfOk result (λ c. c ≡ self.now) }
    {
        Ok(Need {
            name: self.name.copy()?,
            mode: self.mode,
        })
    }
}

impl Token {
    pub fn copy(&self) -> Result<Token, NoMemory>
        ensures { IfOk result (λ c. c ≡ self.now) }
    {
        match self {
            Token::Name(name) => Ok(Token::Name(name.copy()?)),
            Token::Text(text) => Ok(Token::Text(text.copy()?)),
            Token::Int(value) => Ok(Token::Int(*value)),
            Token::Symbol(symbol) => Ok(Token::Symbol(*symbol)),
        }
    }
}

impl CallText {
    pub fn copy(&self) -> Result<CallText, NoMemory>
        ensures { IfOk result (λ c. c ≡ self.now) }
    {
        Ok(CallText {
            text: self.text.copy()?,
            pyx: self.pyx.copy()?,
        })
    }
}

impl Call {
    pub fn copy(&self, alloc: Global) -> Result<Call, NoMemory>
        ensures { IfOk result (λ c. c ≡ self.now) }
    {
        match self {
            Call::Begin => Ok(Call::Begin),
            Call::BeginRead => Ok(Call::BeginRead),
            Call::Commit => Ok(Call::Commit),
            Call::Rollback => Ok(Call::Rollback),
            Call::Checkpoint => Ok(Call::Checkpoint),
            Call::ShowDocuments => Ok(Call::ShowDocuments),
            Call::Create { name } => Ok(Call::Create { name: name.copy()? }),
            Call::Drop { name } => Ok(Call::Drop { name: name.copy()? }),
            Call::Load { name, pyx } => Ok(Call::Load {
                name: name.copy()?,
                pyx: pyx.copy()?,
            }),
            Call::Export { name } => Ok(Call::Export { name: name.copy()? }),
            Call::Update { what } => Ok(Call::Update {
                what: what.copy(alloc)?,
            }),
            Call::Query { expr } => Ok(Call::Query {
                expr: expr.copy(alloc)?,
            }),
        }
    }
}
