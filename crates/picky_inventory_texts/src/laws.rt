//! The laws of inventories of texts, each as the contract of a function that does nothing.

ghost use Rattle.std.specs.Prelude.{◌≡◌, ◌⊎◌, ◌↔◌, ◌++◌, ℕ, Bool, true, false, List, [], Ok, None};
ghost use Rattle.std.specs.List.{AllByRecursion, concat};
ghost use Rattle.std.specs.Str.{IsUtf8};
ghost use Rattle.picky_inventory.specs.ItemLine.{is_item_line};
ghost use Rattle.picky_inventory.specs.InOrder.{SameItems};
ghost use Rattle.picky_inventory.specs.Items.{Item, item_line};
ghost use Rattle.picky_inventory.specs.Listing.{inventory_of};
ghost use Rattle.picky_inventory.specs.OrderedText.{HasWholeLines, IsWholeLine, ordered_text};
ghost use Rattle.picky_inventory_texts.specs.Listed.{IsListed, IsSealed, IsListedLine, Listed, is_listed_line, listed_line, read_item, sealed_item};
ghost use Rattle.picky_inventory_texts.specs.Merging.{IsListing, bad_line, merging};
ghost use Rattle.picky_inventory_texts.specs.Pieces.{all_checked};
ghost use Rattle.picky_inventory_texts.specs.Texts.{items_from, listed_text, plain_reader, texts_inventory};
ghost use Rattle.picky_key_text.specs.Key.{public_part};
ghost use Rattle.picky_key_text.specs.Reader.{Reader};
ghost use Rattle.picky_key_text.specs.Reads.{Reads};
ghost use Rattle.picky_key_text.specs.declared.meaning.Meaning.{Meaning as Meant};
ghost use Rattle.picky_keys.specs.declared.key.SshPublicKey.{SshPublicKey};

/// A line passes the test exactly where it is a listed key's, it is one whole line, and it is of no other.
pub fn line_is_of_one_listed_key()
    ensures exactly { (line : List ℕ) → (is_listed_line line ≡ true) ↔ IsListedLine line }
    ensures whole { (listed : Listed) → IsListed listed → IsWholeLine (listed_line listed) }
    ensures one { (a b : Listed) → IsListed a → IsListed b → listed_line a ≡ listed_line b → a ≡ b }
{}

/// The line of a key that is read is that of picky_inventory, and that of an encrypted private key is none of its lines.
pub fn lines_are_those_of_inventories()
    ensures read { (item : Item) → listed_line (read_item item) ≡ item_line item }
    ensures sealed { (key : SshPublicKey) → is_item_line (listed_line (sealed_item key)) ≡ false }
{}

/// Where nothing sealed is listed, texts have an inventory exactly where they are UTF-8 and have one as picky_inventory's
/// parts, and it is the same.
pub fn inventory_is_that_of_the_parts()
    ensures { (texts : List (List ℕ)) (written : List ℕ) → (texts_inventory false texts ≡ Ok written)
        ↔ (AllByRecursion IsUtf8 texts × (inventory_of plain_reader texts ≡ Ok written)) }
{}

/// What is listed is an inventory, and that of its set: two are equal exactly where the sets are.
pub fn inventory_is_of_its_set()
    ensures items { (sealed : Bool) (texts : List (List ℕ)) (listed : List Listed) → items_from sealed 0 texts ≡ Ok listed
        → AllByRecursion IsListed listed }
    ensures inventory { (listed : List Listed) → AllByRecursion IsListed listed → IsListing (ordered_text listed_line listed) }
    ensures exactly { (xs ys : List Listed) → AllByRecursion IsListed xs → AllByRecursion IsListed ys
        → (ordered_text listed_line xs ≡ ordered_text listed_line ys) ↔ SameItems xs ys }
{}

/// No line is bad exactly where both texts are inventories; the inventories of two lists are merged to that of the lists
/// joined.
pub fn inventories_are_merged()
    ensures exactly { (left right : List ℕ) → (bad_line left right ≡ None) ↔ (IsListing left × IsListing right) }
    ensures joined { (xs ys : List Listed) → AllByRecursion IsListed xs → AllByRecursion IsListed ys
        → merging (ordered_text listed_line xs) (ordered_text listed_line ys) ≡ Ok (ordered_text listed_line (xs ++ ys)) }
{}

/// Pieces that are cut behind LF are in order one after another exactly where they are together an inventory. Pieces that
/// are in order are so cut.
pub fn pieces_are_together_an_inventory()
    ensures exactly { (pieces : List (List ℕ)) → AllByRecursion HasWholeLines pieces
        → ((last : List ℕ) × (all_checked pieces [] ≡ Ok last)) ↔ IsListing (concat pieces) }
    ensures cut { (pieces : List (List ℕ)) (last : List ℕ) → all_checked pieces [] ≡ Ok last
        → AllByRecursion HasWholeLines pieces }
{}

/// The line of an encrypted private key has the public key of each private key that the text means under some passphrase and
/// some suite, and that key's comment or none.
pub fn sealed_line_is_of_its_key()
    ensures { (text : List ℕ) (listed : Listed) → listed_text true text ≡ Ok listed → listed.kind ≡ IsSealed
        → (r : Reader) (meaning : Meant) → Reads r text meaning
        → (listed.key ≡ public_part meaning.key) × ((listed.comment ≡ meaning.comment) ⊎ (listed.comment ≡ [])) }
{}
