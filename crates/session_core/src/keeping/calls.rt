//! The calls of a `Core` as values, and lists of them.
ghost use Rattle.std.specs.Prelude.{◌≡◌, OnOk, OnErr};
ghost use Rattle.session_core.specs.History.Legal.{SoFar};
ghost use Rattle.session_core.specs.Keeping.CoreCalls.{CanAsk, Meets, IsAsked, Makes, AreMade, CanMake, AreCutShort};

use crate::history::event::Reply;
use crate::keeping::sessions::Core;
use doc_locks::AskEnd;
use xml_model::DocMap;
use xq_ast::{Mark, NeedList, NoMemory};

/// A call of a `Core` that adds an event, with all that is handed to it.
#[derive(Drop)]
pub enum CoreCall {
    /// `Core::begin_update`
    BeginUpdate {
        session: u32,
    },
    /// `Core::begin_read`
    BeginRead {
        session: u32,
    },
    /// `Core::ask`, which may be refused.
    Ask {
        session: u32,
        needs: NeedList,
    },
    /// `Core::post`
    Post {
        session: u32,
        reply: Reply,
    },
    /// `Core::commit`
    Commit {
        session: u32,
        forest: DocMap,
    },
    /// `Core::doubt`
    Doubt {
        session: u32,
        forest: DocMap,
        mark: Mark,
    },
    /// `Core::settled`
    Settled {
        by: u32,
        stands: bool,
    },
    /// `Core::end_read`
    EndRead {
        session: u32,
    },
    /// `Core::roll_back`
    RollBack {
        session: u32,
    },
    /// `Core::left`
    Left {
        session: u32,
    },
}

impl Core {
    /// Makes the calls one after another, and stops at the first for which there is no memory: it
    /// and those behind it are gone. The journal is legal so far in either case.
    pub fn make_all(&mut self, calls: Vec<CoreCall>) -> Result<(), NoMemory>
        requires { CanMake calls.items self.old }
        ensures legal { SoFar self.new.base self.new.journal }
        ensures made { OnOk result (AreMade calls.items self.old self.new) }
        ensures err { OnErr result (AreCutShort calls.items self.old self.new) }
    {
        let end = self.make_each(calls);
        // Hands out that the journal is legal after all calls or the first of them, as this call promises.
        self.legal();
        end
    }

    fn make_each(&mut self, calls: Vec<CoreCall>) -> Result<(), NoMemory>
        requires { CanMake calls.items self.old }
        ensures made { OnOk result (AreMade calls.items self.old self.new) }
        ensures err { OnErr result (AreCutShort calls.items self.old self.new) }
    {
        for call in calls {
            self.make(call)?;
        }
        Ok(())
    }

    /// Makes a call. After an error all is as before.
    fn make(&mut self, call: CoreCall) -> Result<(), NoMemory>
        requires { Meets call self.old }
        ensures made { OnOk result (Makes call self.old self.new) }
        ensures err { OnErr result (self.new ≡ self.old) }
    {
        match call {
            CoreCall::BeginUpdate { session } => self.begin_update(session)?,
            CoreCall::BeginRead { session } => {
                let _ = self.begin_read(session)?;
            }
            CoreCall::Ask { session, needs } => self.ask_once(session, &needs)?,
            CoreCall::Post { session, reply } => self.post(session, reply)?,
            CoreCall::Commit { session, forest } => {
                let _ = self.commit(session, forest)?;
            }
            CoreCall::Doubt {
                session,
                forest,
                mark,
            } => {
                let _ = self.doubt(session, forest, mark)?;
            }
            CoreCall::Settled { by, stands } => self.settled(by, stands)?,
            CoreCall::EndRead { session } => self.end_read(session),
            CoreCall::RollBack { session } => self.roll_back(session),
            CoreCall::Left { session } => self.left(session),
        }
        Ok(())
    }

    /// Asks for the locks. A refusal is an event too, and no error.
    fn ask_once(&mut self, session: u32, needs: &NeedList) -> Result<(), NoMemory>
        requires { CanAsk session needs.now self.old }
        ensures asked { OnOk result (IsAsked session needs.now self.old self.new) }
        ensures err { OnErr result (self.new ≡ self.old) }
    {
        match self.ask(session, needs) {
            Ok(()) => Ok(()),
            Err(AskEnd::Held { name: _, holder: _ }) => Ok(()),
            Err(AskEnd::NoMemory) => Err(NoMemory),
        }
    }
}
