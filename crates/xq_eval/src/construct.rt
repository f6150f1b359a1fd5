//! Constructors.
ghost use Rattle.std.specs.Prelude.{map, Some};
ghost use Rattle.std.specs.FinMap as forests;
ghost use Rattle.xq_values.specs.Seen.{made_seen};
ghost use Rattle.xq_nodes.specs.Answers.{Leaves};
ghost use Rattle.xq_eval.specs.Scopes.{in_scope};
ghost use Rattle.xml_model.specs.Evaluation as spec;
ghost use Rattle.xml_model.specs.Items.{give};
ghost use Rattle.xq_ast.specs.declared.tree.Bind.TheOpen.{Expr-F};
ghost use Rattle.xq_eval.specs.Meanings.{means, option_means};
ghost use Rattle.xq_eval.specs.Scopes.{items_seen};

use crate::found::Found;
use crate::scope::Scope;
use crate::values::constructed;
use xml_model::{Attr, Nav, Node};
use xq_ast::{Boxed, Expr, Items, Str};
use xq_functions::{new_element, new_text};
use xq_nodes::EvalEnd;
use xq_values::{MadeList, MadeRoot};

impl<'a, N: Nav> Scope<'a, N> {
    // A new text of these items.
    fn new_text_node(&self, found: Found, made: &mut MadeList) -> Result<Found, EvalEnd<N::Fault>>
        ensures { Leaves (N.honest self.now.nav.now) (N.passes self.now.nav.now) (items_seen (N.place self.now.nav.now)) result (made_seen made.new)
            (in_scope (N.place self.now.nav.now) self.now (spec.value_of (forests.get (N.forest self.now.nav.now)) (Expr-F.TextNode (Some (λ env cx. give (items_seen (N.place self.now.nav.now) found))))) (made_seen made.old)) }
    {
        if found.as_slice().is_empty() {
            return Ok(Found::owned(Items::new(self.alloc)));
        }
        let value = new_text(self.alloc, self.nav, made.as_slice(), found.as_slice())?;
        let node = Node::Text { value };
        Ok(constructed(self.alloc, made, MadeRoot::Node { node })?)
    }

    // The items of the content; without content none.
    #[cycle(eval)]
    fn content(
        &self,
        content: &Option<Boxed<Expr>>,
        made: &mut MadeList,
    ) -> Result<Found, EvalEnd<N::Fault>>
        ensures { Leaves (N.honest self.now.nav.now) (N.passes self.now.nav.now) (items_seen (N.place self.now.nav.now)) result (made_seen made.new)
            (in_scope (N.place self.now.nav.now) self.now (spec.content_or (option_means (forests.get (N.forest self.now.nav.now)) content.now)) (made_seen made.old)) }
    {
        match content {
            None => Ok(Found::owned(Items::new(self.alloc))),
            Some(expr) => self.eval(expr.get(), made),
        }
    }

    /// A new element.
    #[cycle(eval)]
    pub(crate) fn element(
        &self,
        name: &Str,
        content: &Option<Boxed<Expr>>,
        made: &mut MadeList,
    ) -> Result<Found, EvalEnd<N::Fault>>
        ensures { Leaves (N.honest self.now.nav.now) (N.passes self.now.nav.now) (items_seen (N.place self.now.nav.now)) result (made_seen made.new)
            (in_scope (N.place self.now.nav.now) self.now (spec.value_of (forests.get (N.forest self.now.nav.now)) (Expr-F.Element name.now (option_means (forests.get (N.forest self.now.nav.now)) content.now))) (made_seen made.old)) }
    {
        let found = self.content(content, made)?;
        let node = new_element(
            self.alloc,
            self.nav,
            made.as_slice(),
            name,
            found.as_slice(),
        )?;
        Ok(constructed(self.alloc, made, MadeRoot::Node { node })?)
    }

    /// A new attribute.
    #[cycle(eval)]
    pub(crate) fn attribute(
        &self,
        name: &Str,
        content: &Option<Boxed<Expr>>,
        made: &mut MadeList,
    ) -> Result<Found, EvalEnd<N::Fault>>
        ensures { Leaves (N.honest self.now.nav.now) (N.passes self.now.nav.now) (items_seen (N.place self.now.nav.now)) result (made_seen made.new)
            (in_scope (N.place self.now.nav.now) self.now (spec.value_of (forests.get (N.forest self.now.nav.now)) (Expr-F.Attribute name.now (option_means (forests.get (N.forest self.now.nav.now)) content.now))) (made_seen made.old)) }
    {
        let found = self.content(content, made)?;
        let value = new_text(self.alloc, self.nav, made.as_slice(), found.as_slice())?;
        let name = name.copy()?;
        let attr = Attr { name, value };
        Ok(constructed(self.alloc, made, MadeRoot::Attribute { attr })?)
    }

    /// A new text; nothing where its content has no items.
    #[cycle(eval)]
    pub(crate) fn text_node(
        &self,
        content: &Option<Boxed<Expr>>,
        made: &mut MadeList,
    ) -> Result<Found, EvalEnd<N::Fault>>
        ensures { Leaves (N.honest self.now.nav.now) (N.passes self.now.nav.now) (items_seen (N.place self.now.nav.now)) result (made_seen made.new)
            (in_scope (N.place self.now.nav.now) self.now (spec.value_of (forests.get (N.forest self.now.nav.now)) (Expr-F.TextNode (option_means (forests.get (N.forest self.now.nav.now)) content.now))) (made_seen made.old)) }
    {
        let found = self.content(content, made)?;
        self.new_text_node(found, made)
    }
}
