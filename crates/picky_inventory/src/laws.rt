//! The laws of texts of sets, of parts and of a run's words and bytes, each as the contract of a function that does nothing.

ghost use Rattle.std.specs.Prelude.{◌≡◌, ◌≢◌, ◌↔◌, ◌⊎◌, ◌<◌, ◌≤◌, ◌++◌, ◌∷◌, ℕ, Bool, true, List, [], length, None};
ghost use Rattle.std.specs.Prelude.{Some, Ok, Err};
ghost use Rattle.std.specs.Prelude.{AllPairs, IsUtf8};
ghost use Rattle.std.specs.Option.{IfSome};
ghost use Rattle.std.specs.List.{AllByRecursion};
ghost use Rattle.std.specs.List.Sorted.{IsStrictlySortedBy};
ghost use Rattle.picky_issuing.specs.Parts.{IsCut, HasNoMark, lines_with_ends, mark_lf};
ghost use Rattle.picky_input.specs.Input.{input_limit};
ghost use Rattle.picky_input.specs.SourceText.{IsSourceText};
ghost use Rattle.picky_key_text.specs.Reader.{Reader};
ghost use Rattle.picky_key_text.specs.Want.{IsFault, WantsMemory};
ghost use Rattle.picky_inventory.specs.BadLine.{IsInventory, bad_line};
ghost use Rattle.picky_inventory.specs.Command.{Names};
ghost use Rattle.picky_inventory.specs.InOrder.{SameItems, line_cmp};
ghost use Rattle.picky_inventory.specs.ItemLine.{is_item_line};
ghost use Rattle.picky_inventory.specs.Items.{IsItem, Item, item_line, items_from};
ghost use Rattle.picky_inventory.specs.Listing.{inventory};
ghost use Rattle.picky_inventory.specs.Merging.{left_part, merged_or_bad, merging, right_part};
ghost use Rattle.picky_inventory.specs.OrderedText.{IsWholeLine, HasWholeLines, IsFirstBad, LinesTellApart};
ghost use Rattle.picky_inventory.specs.OrderedText.{first_bad, merged, ordered_text};
ghost use Rattle.picky_inventory.specs.Parted.{text_parts};
ghost use Rattle.picky_inventory.specs.Run.{outcome};

use crate::command::Command;
use crate::status::InventoryStatus;
use picky_key_text::ReadError;

/// One set has one text. Where the lines tell the items apart, two texts are equal exactly where the sets are.
pub fn text_is_of_its_set<T>()
    ensures one { (line_of : T → List ℕ) (xs ys : List T) → SameItems xs ys
        → ordered_text line_of xs ≡ ordered_text line_of ys }
    ensures exactly { (line_of : T → List ℕ) (xs ys : List T) → LinesTellApart line_of (xs ++ ys)
        → (ordered_text line_of xs ≡ ordered_text line_of ys) ↔ SameItems xs ys }
{}

/// The lines of such a text are in strict order, and none stands twice.
pub fn no_line_stands_twice<T>()
    ensures sorted { (line_of : T → List ℕ) (xs : List T) → AllByRecursion (λ x. IsWholeLine (line_of x)) xs
        → IsStrictlySortedBy line_cmp (lines_with_ends (ordered_text line_of xs)) }
    ensures once { (line_of : T → List ℕ) (xs : List T) → AllByRecursion (λ x. IsWholeLine (line_of x)) xs
        → AllPairs (λ a b. a ≢ b) (lines_with_ends (ordered_text line_of xs)) }
{}

/// The texts of two lists are merged to the text of the lists joined.
pub fn merging_joins_sets<T>()
    ensures { (line_of : T → List ℕ) (xs ys : List T) → AllByRecursion (λ x. IsWholeLine (line_of x)) xs
        → AllByRecursion (λ x. IsWholeLine (line_of x)) ys
        → merged (ordered_text line_of xs) (ordered_text line_of ys) ≡ ordered_text line_of (xs ++ ys) }
{}

/// Two texts are merged either way round to one, three in any order, and a text in strict order with itself to
/// itself. What is merged is in strict order.
pub fn merging_has_no_order()
    ensures either_way { (a b : List ℕ) → merged a b ≡ merged b a }
    ensures any_order { (a b c : List ℕ) → HasWholeLines a → HasWholeLines b → HasWholeLines c
        → merged (merged a b) c ≡ merged a (merged b c) }
    ensures itself { (a : List ℕ) → IsStrictlySortedBy line_cmp (lines_with_ends a) → merged a a ≡ a }
    ensures sorted { (a b : List ℕ) → HasWholeLines a → HasWholeLines b
        → IsStrictlySortedBy line_cmp (lines_with_ends (merged a b)) }
{}

/// No line is refused exactly where each is an item's and they are in strict order; else the first that is bad is.
pub fn lines_are_refused_exactly()
    ensures first { (is_item : List ℕ → Bool) (n : ℕ) (lines : List (List ℕ)) (k : ℕ)
        → first_bad is_item n None lines ≡ Some k → IsFirstBad is_item n None lines k }
    ensures none { (is_item : List ℕ → Bool) (n : ℕ) (lines : List (List ℕ)) → (first_bad is_item n None lines ≡ None)
        ↔ (AllByRecursion (λ line. is_item line ≡ true) lines × IsStrictlySortedBy line_cmp lines) }
{}

/// The parts of a text are what stands before its first mark and the parts of what follows that; without a mark, it.
pub fn text_has_its_parts()
    ensures marked { (text front rest : List ℕ) → IsCut text front rest → text_parts text ≡ front ∷ text_parts rest }
    ensures unmarked { (text : List ℕ) → HasNoMark text → text_parts text ≡ text ∷ [] }
{}

/// The line of an item is one line, and is of no other item.
pub fn line_is_of_one_item()
    ensures line { (item : Item) → IsItem item → IsWholeLine (item_line item) }
    ensures one { (a b : Item) → IsItem a → IsItem b → item_line a ≡ item_line b → a ≡ b }
{}

/// A line passes the test exactly where it is an item's.
pub fn line_is_of_an_item_exactly()
    ensures { (line : List ℕ) → (is_item_line line ≡ true) ↔ ((item : Item) × IsItem item × (line ≡ item_line item)) }
{}

/// No line is bad exactly where both texts are inventories: whole lines of items, in strict order.
pub fn no_line_is_bad_in_inventories()
    ensures exactly { (left right : List ℕ) → (bad_line left right ≡ None) ↔ (IsInventory left × IsInventory right) }
    ensures whole { (text : List ℕ) → IsInventory text → HasWholeLines text }
{}

/// What stands before the first mark of a source is merged with what follows it, and without a mark nothing with it all.
pub fn source_is_cut_and_merged()
    ensures marked { (text left right : List ℕ) → IsCut text left right → merging text ≡ merged_or_bad left right }
    ensures unmarked { (text : List ℕ) → HasNoMark text → merging text ≡ merged_or_bad [] text }
{}

/// The inventories of two lists of items are merged to that of the lists joined.
pub fn inventories_are_merged()
    ensures { (xs ys : List Item) → AllByRecursion IsItem xs → AllByRecursion IsItem ys
        → merged_or_bad (ordered_text item_line xs) (ordered_text item_line ys) ≡ Ok (ordered_text item_line (xs ++ ys)) }
{}

/// An inventory, a line `%%` and any text are cut there: it is what stands before the first mark.
pub fn inventory_has_no_mark()
    ensures left { (left right : List ℕ) → IsInventory left → left_part (left ++ mark_lf ++ right) ≡ left }
    ensures right { (left right : List ℕ) → IsInventory left → right_part (left ++ mark_lf ++ right) ≡ right }
{}

/// The items of two lists that are read are those of the lists joined.
pub fn lists_are_joined()
    ensures { (r : Reader) (one other : List (List ℕ)) (xs ys : List Item) → items_from r 0 one ≡ Ok xs → items_from r 0 other ≡ Ok ys
        → items_from r 0 (one ++ other) ≡ Ok (xs ++ ys) }
{}

/// An inventory is the text of a list of items, and such a text is an inventory.
pub fn inventory_is_of_items()
    ensures items { (text : List ℕ) → IsInventory text
        → (items : List Item) × AllByRecursion IsItem items × (text ≡ ordered_text item_line items) }
    ensures inventory { (items : List Item) → AllByRecursion IsItem items → IsInventory (ordered_text item_line items) }
{}

/// Two texts of items are equal exactly where the sets of items are.
pub fn inventory_is_of_its_set()
    ensures { (xs ys : List Item) → AllByRecursion IsItem xs → AllByRecursion IsItem ys
        → (ordered_text item_line xs ≡ ordered_text item_line ys) ↔ SameItems xs ys }
{}

/// What is read of the parts of a text is items, so their text is of their set.
pub fn parts_give_items()
    ensures utf8 { (text : List ℕ) → IsUtf8 text → AllByRecursion IsUtf8 (text_parts text) }
    ensures items { (r : Reader) (n : ℕ) (parts : List (List ℕ)) (items : List Item) → AllByRecursion IsUtf8 parts
        → IfSome r.pass IsUtf8 → items_from r n parts ≡ Ok items → AllByRecursion IsItem items }
{}

/// Words name one command, or none.
pub fn words_name_a_command_or_none()
    ensures { (words : List (List ℕ)) → ((c : Command) × Names words c) ⊎ ((c : Command) → Names words c → ⊥) }
{}

/// The bytes of a source are refused exactly where they are too many, or no text, or a text that the command refuses.
pub fn bytes_are_refused_for_what_they_are()
    ensures too_long { (r : Reader) (c : Command) (input : List ℕ)
        → (outcome r c input ≡ Err InventoryStatus.InputTooLong) ↔ (input_limit < length input) }
    ensures not_utf8 { (r : Reader) (c : Command) (input : List ℕ)
        → (outcome r c input ≡ Err InventoryStatus.InputNotUtf8) ↔ ((length input ≤ input_limit) × (IsUtf8 input → ⊥)) }
    ensures refused { (r : Reader) (c : Command) (input : List ℕ) (n : ℕ) (e : ReadError)
        → (outcome r c input ≡ Err (InventoryStatus.Refused n e))
        ↔ ((c ≡ Command.Listing) × IsSourceText input × (inventory r input ≡ Err (n, e))) }
    ensures bad_line { (r : Reader) (c : Command) (input : List ℕ) (k : ℕ)
        → (outcome r c input ≡ Err (InventoryStatus.BadLine k))
        ↔ ((c ≡ Command.Merging) × IsSourceText input × (bad_line (left_part input) (right_part input) ≡ Some k)) }
{}

/// The refusal of a text says at no depth that memory ran out or that the suite failed.
pub fn refusals_tell_of_no_device()
    ensures { (r : Reader) (text : List ℕ) (n : ℕ) (e : ReadError) → inventory r text ≡ Err (n, e)
        → (WantsMemory e → ⊥) × (IsFault e → ⊥) }
{}
