//! Laws of items: each function proves its clause, and answers nothing.
ghost use Rattle.std.specs.Prelude.{◌≡◌, ℕ, Some};
ghost use Rattle.pv_ast.specs.declared.Expr.{Expr as Tree};
ghost use Rattle.pv_ast.specs.Rules.Items as items;
ghost use Rattle.pv_shapes.specs.Parts.{HasParts, IsOrIsPlain};

/// An expression that is an item has the parts that the item's form says.
pub fn items_have_parts()
    ensures { (name : ℕ) (e : Tree) (item : items.Item) → items.item_of name e ≡ Some item → HasParts name item e }
{}

/// An expression that has the parts of an item is an item: this one, or a constant or a fact.
pub fn parts_make_items()
    ensures { (name : ℕ) (e : Tree) (item : items.Item) → HasParts name item e → IsOrIsPlain item (items.item_of name e) }
{}
