// Finding: the order table of a book, which names the parts in strictly ascending order of what they hold. An insert looks a candidate up
// in it by halving, and that it ascends strictly is the mark that no two parts are the same. specs/Keys.antt says what a part holds,
// specs/Ascent.antt what the mark is, specs/Finding.antt what looking up answers. Bytes and limits are two parameters, for the reason that
// `store` gives.
#![tactic(auto)]

ghost use Rattle.std.specs.Prelude.{◌≡◌, refl, ◌<◌, List, map, ℕ, length, get_or, ltb};
ghost use Rattle.std.specs.Int.{w64};
ghost use Rattle.std.proofs.Common.{of_z, sym};
ghost use Rattle.std.proofs.lemmas.List.{map-id};
ghost use Rattle.store.specs.Layout.{Laid};
ghost use Rattle.store.specs.Records.{part_count};
ghost use Rattle.finding.specs.KeyOrder.{key_order};
ghost use Rattle.finding.specs.Keys.{first_of, head_key, item_at, item_limit, key_at, part_order, head_order, Inside};
ghost use Rattle.finding.specs.Keys.{candidate_head, words_of, key_of, Gives};
ghost use Rattle.finding.specs.Ascent.{rises_b, ascends_b, PartsInside, Neighbours};
ghost use Rattle.finding.specs.Finding.{FoundRight, Ordered};

use std::cmp::Ordering;
use store::{Count, Head, Limits, Record};

// ---- heads: all that stands before the items

// The first four fields as the number that the first four bytes of a record are.
fn first_of(content: Record) -> u32
    ensures { result ≡ first_of content }
{
    u32::from_le_bytes([content.kind, content.attribute, content.tag, content.scale])
}

// A candidate's head; its items stand elsewhere.
fn candidate_head(content: Record, length: usize) -> Head
    ensures { result ≡ candidate_head content length }
{
    Head {
        kind: content.kind,
        first: first_of(content),
        number: content.number,
        length,
        start: 0,
    }
}

fn compare_heads(a: Head, b: Head) -> Ordering
    ensures { result ≡ key_order (head_key a) (head_key b) }
{
    (a.first, a.number, a.length).cmp(&(b.first, b.number, b.length))
}

// ---- items

// Whether the head is an And's or an Or's, which have the numbers 0 and 1.
fn is_join(head: Head) -> bool
    ensures { result ≡ ltb head.kind 2 }
{
    head.kind < 2
}

// An item of a part with this head: a child's number or, of a predicate, an element's two's complement.
fn get_item(bytes: &[u8], limits: Limits, head: Head, k: usize) -> u64
    requires { Laid limits bytes.now × (k < item_limit (ltb head.kind 2) limits) }
    ensures { result ≡ item_at (ltb head.kind 2) limits bytes.now k }
{
    if is_join(head) {
        return u64::from(store::get_place(bytes, limits, k));
    }
    store::get_element(bytes, limits, k)
}

// ---- parts

// How part p compares with a head and the items after it, which `item` gives place by place: the heads decide, or leave it to the items.
// Heads that are the same tell of as many items, so one loop goes over both, and two items that are the same cost it one test.
// By hand: `Iterator::cmp` makes an order of each two items first, tests that, and looks on either side for an end.
fn compare_part<F: Fn(usize) -> u64>(
    bytes: &[u8],
    limits: Limits,
    p: usize,
    head: Head,
    item: F,
) -> Ordering
    requires inside { Inside limits bytes.now p }
    requires can { (k : ℕ) → k < head.length → F.pre item k }
    ensures { (others : List ℕ) → Gives (F.post item) head.length others → result ≡ head_order limits bytes.now p head others }
{
    let own = store::get_head(bytes, limits, p);
    let order = compare_heads(own, head);
    if order.is_ne() {
        return order;
    }
    for k in 0..own.length {
        let x = get_item(bytes, limits, own, own.start + k);
        let y = item(k);
        if x != y {
            return x.cmp(&y);
        }
    }
    Ordering::Equal
}

// How part p compares with part q.
pub fn compare_parts(bytes: &[u8], limits: Limits, p: usize, q: usize) -> Ordering
    requires { Inside limits bytes.now p × Inside limits bytes.now q }
    ensures { result ≡ part_order limits bytes.now p (key_at limits bytes.now q) }
{
    let head = store::get_head(bytes, limits, q);
    let item = |k| get_item(bytes, limits, head, head.start + k);
    compare_part(bytes, limits, p, head, item)
}

// An item of a candidate: a predicate's element, as its two's complement, or the number of an operator's child.
pub trait Item: Copy {
    // What a key has for the item, and for all the items of a candidate.
    ghost word: { Self → ℕ };

    ghost words: { List Self → List ℕ };

    fn word(self) -> u64
        ensures { result ≡ word self };

    ghost each: { (items : List Self) → words items ≡ map word items };
}

impl Item for i64 {
    ghost word = { of_z w64 };

    ghost words = { words_of };

    fn word(self) -> u64 {
        self.cast_unsigned()
    }

    ghost each = { λ items. refl };
}

impl Item for u16 {
    ghost word = { λ child. child };

    ghost words = { λ children. children };

    fn word(self) -> u64 {
        u64::from(self)
    }

    ghost each = { λ children. sym (map-id children) };
}

// How part p compares with a candidate, which need not stand in the book: a predicate and its list, or an operator and its children.
// `content` and `items` stay two parameters: a struct of both would serve this function and `find_candidate` alone, no plainer.
pub fn compare_candidate<T: Item>(
    bytes: &[u8],
    limits: Limits,
    p: usize,
    content: Record,
    items: &[T],
) -> Ordering
    requires { Inside limits bytes.now p }
    ensures { result ≡ part_order limits bytes.now p (key_of content (T.words items.now)) }
{
    let head = candidate_head(content, items.len());
    let word = |k: usize| -> u64
        requires { k < length items.now }
        ensures { result ≡ get_or (map T.word items.entry.now) k 0 }
    { items[k].word() };
    compare_part(bytes, limits, p, head, word)
}

// ---- the order table

// Whether the part that entry k names holds more than the one that the entry before it names.
#[tactic(auto, using(crate::proofs::MarkLaws::rises_first))]
fn rises(bytes: &[u8], limits: Limits, k: usize) -> bool
    requires { Neighbours limits bytes.now k }
    ensures { result ≡ rises_b limits bytes.now k }
{
    if k == 0 {
        return true;
    }
    let p = usize::from(store::get_entry(bytes, limits, k - 1));
    let q = usize::from(store::get_entry(bytes, limits, k));
    compare_parts(bytes, limits, p, q).is_lt()
}

// The mark: the first `count` entries name parts below `count`, each of which holds more than the one before.
#[tactic(auto, using(crate::proofs::MarkLaws::marks))]
pub fn order_ascends(bytes: &[u8], limits: Limits, count: usize) -> bool
    requires { PartsInside limits bytes.now count }
    ensures { result ≡ ascends_b limits bytes.now count }
{
    for k in 0..count {
        let p = usize::from(store::get_entry(bytes, limits, k));
        if count <= p || !rises(bytes, limits, k) {
            return false;
        }
    }
    true
}

// A candidate's part or, as an error, the place in the order table where it is to stand, by halving.
pub fn find_candidate<T: Item>(
    bytes: &[u8],
    limits: Limits,
    content: Record,
    items: &[T],
) -> Result<usize, usize>
    requires { Ordered limits bytes.now }
    ensures { FoundRight limits bytes.now (key_of content (T.words items.now)) result }
{
    let count = store::get_count(bytes, Count::Parts);
    let compare = |k: usize|
        requires { Ordered limits bytes.now × (k < part_count bytes.now) }
    {
        let p = usize::from(store::get_entry(bytes, limits, k));
        compare_candidate(bytes, limits, p, content, items)
    };
    let place = lists::search(count, compare)?;
    Ok(usize::from(store::get_entry(bytes, limits, place)))
}
