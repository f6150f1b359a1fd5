//! Updates.
ghost use Rattle.std.specs.Prelude.{◌≡◌, option_map};
ghost use Rattle.xq_ast.specs.Readings as spec;
ghost use Rattle.xq_parse.specs.Operands.{relation_of};
ghost use Rattle.xq_parse.specs.Reads.{Reads, Finds};

use crate::ahead::word;
use crate::answer::ParseEnd;
use crate::cursor::Parser;
use xq_ast::{Expr, Token, Update};

/// Where what is inserted goes.
#[derive(Clone, Copy)]
pub(crate) enum Relation {
    Into,
    Preceding,
    Following,
}

/// The update that inserts so.
fn inserted(relation: Relation, source: Expr, target: Expr) -> Update
    ensures { result ≡ spec.inserted (relation_of relation) source target }
{
    match relation {
        Relation::Into => Update::Into { source, target },
        Relation::Preceding => Update::Preceding { source, target },
        Relation::Following => Update::Following { source, target },
    }
}

impl<'a> Parser<'a> {
    /// Takes `into`, `preceding` or `following`, where one comes next.
    fn relation(&mut self) -> Option<Relation>
        ensures { Finds (option_map relation_of result) self.old self.new (spec.relation self.old) }
    {
        match self.left() {
            [Token::Name(name), rest @ ..] if name.as_str() == "into" => {
                self.goes_on(rest);
                Some(Relation::Into)
            }
            [Token::Name(name), rest @ ..] if name.as_str() == "preceding" => {
                self.goes_on(rest);
                Some(Relation::Preceding)
            }
            [Token::Name(name), rest @ ..] if name.as_str() == "following" => {
                self.goes_on(rest);
                Some(Relation::Following)
            }
            _ => None,
        }
    }

    /// `Single (into | preceding | following) Single`
    #[tactic(auto, unfolding(xq_ast::specs::Readings::insert))]
    fn insert(&mut self, depth: usize) -> Result<Update, ParseEnd>
        ensures { Reads (λ what. (what, self.new)) result (spec.insert (spec.single depth) self.old) }
    {
        let source = self.single(depth)?;
        let Some(relation) = self.relation() else {
            return Err(ParseEnd::XPST0003);
        };
        let target = self.single(depth)?;
        Ok(inserted(relation, source, target))
    }

    /// `$Name in Single with Single`
    #[tactic(auto, unfolding(xq_ast::specs::Readings::replace))]
    fn replace(&mut self, depth: usize) -> Result<Update, ParseEnd>
        ensures { Reads (λ what. (what, self.new)) result (spec.replace (spec.single depth) self.old) }
    {
        let name = self.variable()?;
        self.expect(word("in", self.left()))?;
        let target = self.single(depth)?;
        self.expect(word("with", self.left()))?;
        let by = self.single(depth)?;
        Ok(Update::Replace { name, target, by })
    }

    /// `Single on Name`
    #[tactic(auto, unfolding(xq_ast::specs::Readings::rename))]
    fn rename(&mut self, depth: usize) -> Result<Update, ParseEnd>
        ensures { Reads (λ what. (what, self.new)) result (spec.rename (spec.single depth) self.old) }
    {
        let target = self.single(depth)?;
        self.expect(word("on", self.left()))?;
        let name = self.name()?;
        Ok(Update::Rename { target, name })
    }

    /// The update whose first word this is, behind it.
    fn named_update(&mut self, word: &str, depth: usize) -> Result<Update, ParseEnd>
        ensures { Reads (λ what. (what, self.new)) result (spec.named_update word.now (spec.single depth) self.old) }
    {
        match word {
            "insert" => self.insert(depth),
            "delete" => {
                let target = self.single(depth)?;
                Ok(Update::Delete { target })
            }
            "delete_undeep" => {
                let target = self.single(depth)?;
                Ok(Update::DeleteUndeep { target })
            }
            "replace" => self.replace(depth),
            "rename" => self.rename(depth),
            _ => Err(ParseEnd::XPST0003),
        }
    }

    /// What follows the word `UPDATE`.
    pub(crate) fn update(&mut self, depth: usize) -> Result<Update, ParseEnd>
        ensures { Reads (λ what. (what, self.new)) result (spec.an_update (spec.single depth) self.old) }
    {
        match self.left() {
            [Token::Name(word), rest @ ..] => {
                self.goes_on(rest);
                self.named_update(word.as_str(), depth)
            }
            _ => Err(ParseEnd::XPST0003),
        }
    }
}
