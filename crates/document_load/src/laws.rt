//! What the definitions of needs and of gifts say. Each function is a law: its contract is what it
//! is for, and it does nothing when it runs.

ghost use Rattle.std.specs.Prelude.{◌≡◌, ℕ, List, [], ◌∷◌, ◌++◌, Option, Some, None, if◌then◌else◌, length, option_to_list, replicate};
ghost use Rattle.std.specs.Option.{is_some};
ghost use Rattle.dom_tree.specs.Items.{Item};
ghost use Rattle.multipart_entities.specs.declared.paths.Path.{Path};
ghost use Rattle.document_load.specs.Needs.{need_in, named_by, needs_of};
ghost use Rattle.document_load.specs.Drafts.{DraftState, draft_of, with_gift, with_gifts};

/// Each node has at most one need, the one that its own reference resolves to, and needs stand in
/// document order. With a node more, the nodes that name needs are those before and, where it has a
/// need, this one.
pub fn law_of_needs()
    ensures none { (base : Path) → needs_of base [] ≡ [] }
    ensures one { (base : Path) (item : Item)
        → needs_of base (item ∷ []) ≡ option_to_list (need_in base item) }
    ensures order { (base : Path) (before behind : List Item)
        → needs_of base (before ++ behind) ≡ needs_of base before ++ needs_of base behind }
    ensures nodes { (base : Path) (before : List Item) (item : Item)
        → named_by base (before ++ item ∷ []) ≡ named_by base before
        ++ (if is_some (need_in base item) then length before ∷ [] else []) }
    ensures count { (base : Path) (items : List Item)
        → length (named_by base items) ≡ length (needs_of base items) }
{}

/// At first nothing is given for each need, and one gift more replaces what was given for its need.
pub fn law_of_gifts()
    ensures none { (path : Path) (items : List Item)
        → with_gifts (replicate (length (needs_of path items)) None) (draft_of path items)
        ≡ draft_of path items }
    ensures more { (before behind : List (Option (List ℕ))) (gift : Option (List ℕ))
        (text : List ℕ) (draft : DraftState)
        → with_gift (length before) text (with_gifts (before ++ gift ∷ behind) draft)
        ≡ with_gifts (before ++ Some text ∷ behind) draft }
{}
