// Laws over the definitions alone.
ghost use Rattle.std.specs.Prelude.{◌≡◌, ◌↔◌, ℕ, ◌<◌, ◌≤◌, ◌^◌, ◌++◌, ◌∷◌, [], List, map, pos, negsuc, All};
ghost use Rattle.std.specs.Cmp.{IsTotalOrder};
ghost use Rattle.std.specs.declared.cmp.Ordering.TheVariants.{Equal};
ghost use Rattle.order_labels.specs.KeyValue.{KeyValue, IsKey, whole};
ghost use Rattle.order_labels.specs.LabelOrder.{IsDigitCount, digit_count, byte_order, code, IsBelow, IsKeyBelow, IsLower};
ghost use Rattle.order_labels.specs.LabelShape.{child_label, IsAncestor};
ghost use Rattle.order_labels.specs.Insertions.{Insertions, IsRising, AreKept};

/// Law: the codes of some integers.
#[tactic(auto, unfolding(crate::specs::LabelOrder::code, crate::specs::LabelOrder::integer_code, crate::specs::LabelOrder::digit_count))]
pub fn worked_codes()
    ensures zero { code (whole (pos 0)) ≡ 129 ∷ 2 ∷ [] }
    ensures last_of_one_digit { code (whole (pos 253)) ≡ 129 ∷ 255 ∷ [] }
    ensures first_of_two_digits { code (whole (pos 254)) ≡ 130 ∷ 3 ∷ 2 ∷ [] }
    ensures minus_1 { code (whole (negsuc 0)) ≡ 127 ∷ 255 ∷ [] }
    ensures minus_254 { code (whole (negsuc 253)) ≡ 127 ∷ 2 ∷ [] }
    ensures minus_255 { code (whole (negsuc 254)) ≡ 126 ∷ 254 ∷ 255 ∷ [] }
{}

/// Law: a code has the least number of digits that is enough; the order of codes is that of keys, by
/// the integer and then by the fraction; a code is that of one key; and no byte of it is 0 or 1.
pub fn code_order()
    ensures digits { (i : ℕ) → i < 254 ^ 7 → IsDigitCount i (digit_count i) }
    ensures order { (a b : KeyValue) → IsKey a → IsKey b → IsKeyBelow a b ↔ IsLower a b }
    ensures one_key { (a b : KeyValue) → IsKey a → IsKey b → code a ≡ code b → a ≡ b }
    ensures bytes { (k : KeyValue) → IsKey k → All (λ b. (2 ≤ b) × (b ≤ 255)) (code k) }
{}

/// Law: the order of labels is total and tells different labels apart; an ancestor comes before what
/// is below it; and a child or attribute with a lower key comes, with all that is below it, before
/// one with a higher key.
pub fn label_order()
    ensures total { IsTotalOrder byte_order }
    ensures equal { (a b : List ℕ) → byte_order a b ≡ Equal → a ≡ b }
    ensures ancestors { (a b : List ℕ) → IsAncestor a b → IsBelow a b }
    ensures siblings { (parent x y : List ℕ) (a b : KeyValue) → IsKey b → IsKeyBelow a b → IsBelow (child_label parent a ++ x) (child_label parent b ++ y) }
{}

/// Law: in any sequence of insertions at any places, the keys that were there keep their codes and
/// their order, and the keys rise after it as before.
pub fn insertions_keep_keys()
    ensures { (before after : List KeyValue) → IsRising before → Insertions before after → IsRising after × AreKept (map code before) (map code after) }
{}
