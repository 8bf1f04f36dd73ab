// Changes of a book's bytes: a part appended, a rule put in and taken away, roots renumbered, an entry put into the order table.
// specs/Changes.antt gives the bytes that each leaves, specs/Effects.antt what that does to the book. Bytes and limits are two parameters,
// for the reason that `store` gives.
#![tactic(auto)]

ghost use Rattle.std.specs.Prelude.{◌≡◌, ◌+◌, ◌<◌, ◌≤◌, length};
ghost use Rattle.store.specs.Layout.{Laid};
ghost use Rattle.store.specs.Records.{rule_count};
ghost use Rattle.changes.specs.Changes.{put_all_children, part_more, insert_rule, remove_rule, renumber_roots, insert_entry};
ghost use Rattle.changes.specs.Effects.{Room, Placed, ElementsPut, JoinPut, PredicatePut, AscendingIds, RulePlace, RootsBelow};

use std::cmp::Ordering;
use store::{Count, Limits, Record, Rule};

// The children put as child places from `at` on.
// This function and `write_elements` stay two: one over both would take the writing as a closure, longer than either.
#[tactic(auto, unfolding(words::specs::Run::wrote))]
fn write_children(bytes: &mut [u8], limits: Limits, at: usize, children: &[u16])
    requires { Laid limits bytes.old × (at + length children.now ≤ limits.places) }
    ensures { bytes.new ≡ put_all_children limits bytes.old at children.now }
{
    for (k, child) in children.iter().enumerate() {
        store::put_place(bytes, limits, at + k, *child);
    }
}

// The list put as list elements from `at` on.
#[tactic(auto, using(crate::proofs::WritingLaws::elements_more), unfolding(words::specs::Run::wrote))]
fn write_elements(bytes: &mut [u8], limits: Limits, at: usize, list: &[i64])
    requires { Laid limits bytes.old × (at + length list.now ≤ limits.elements) }
    ensures { ElementsPut limits bytes.old at list.now (length list.now) bytes.new }
{
    for (k, element) in list.iter().enumerate() {
        store::put_element(bytes, limits, at + k, element.cast_unsigned());
    }
}

// A record with its run.
fn place(content: Record, count: usize, start: usize) -> Record
    requires { (count ≤ 65535) × (start ≤ 65535) }
    ensures { Placed content count start result }
{
    Record {
        length: count as u16,
        start: start as u32,
        ..content
    }
}

// The last part's record, and the counts with it: one part more, and so many child places and list elements.
fn close(bytes: &mut [u8], limits: Limits, content: Record, places: usize, elements: usize)
    requires { Room limits bytes.old places elements }
    ensures { bytes.new ≡ part_more limits bytes.old content places elements }
{
    let part = store::get_count(bytes, Count::Parts);
    let all_places = store::get_count(bytes, Count::Places) + places;
    let all_elements = store::get_count(bytes, Count::Elements) + elements;
    store::put_record(bytes, limits, part, content);
    store::put_count(bytes, Count::Parts, part + 1);
    store::put_count(bytes, Count::Places, all_places);
    store::put_count(bytes, Count::Elements, all_elements)
}

// One And or Or more, over these children.
// This and `append_predicate` stay two: one over both would take the count, the writing and the sum that grows, longer than either.
pub fn append_join(bytes: &mut [u8], limits: Limits, content: Record, children: &[u16])
    requires { Room limits bytes.old (length children.now) 0 }
    ensures { JoinPut limits bytes.old content children.now bytes.new }
{
    let start = store::get_count(bytes, Count::Places);
    let count = children.len();
    write_children(bytes, limits, start, children);
    close(bytes, limits, place(content, count, start), count, 0)
}

// One predicate more, with this list.
pub fn append_predicate(bytes: &mut [u8], limits: Limits, content: Record, list: &[i64])
    requires { Room limits bytes.old 0 (length list.now) }
    ensures { PredicatePut limits bytes.old content list.now bytes.new }
{
    let start = store::get_count(bytes, Count::Elements);
    let count = list.len();
    write_elements(bytes, limits, start, list);
    close(bytes, limits, place(content, count, start), 0, count)
}

// Where a rule's id stands among the rules, or is to stand, by halving.
pub fn rule_place(bytes: &[u8], limits: Limits, id: u32) -> usize
    requires { Laid limits bytes.now × (rule_count bytes.now ≤ limits.rules) × AscendingIds bytes.now }
    ensures { RulePlace bytes.now id result }
{
    // Less or greater, and nothing for equal: each step is one test, and the search ends at the first rule whose id is not below.
    let compare = |k: usize| {
        if store::get_rule(bytes, limits, k).id < id {
            Ordering::Less
        } else {
            Ordering::Greater
        }
    };
    let (Ok(place) | Err(place)) = lists::search(store::get_count(bytes, Count::Rules), compare);
    place
}

// A rule put at place i: those from there on move up.
// This loop and the two like it stay: `copy_within` would take two public functions more in `store`, which alone has the tables' places.
pub fn insert_rule(bytes: &mut [u8], limits: Limits, i: usize, rule: Rule)
    requires { Laid limits bytes.old × (i ≤ rule_count bytes.old) × (rule_count bytes.old < limits.rules) }
    ensures { bytes.new ≡ insert_rule bytes.old i rule }
{
    let count = store::get_count(bytes, Count::Rules);
    for k in (i..count).rev() {
        let moved = store::get_rule(bytes, limits, k);
        store::put_rule(bytes, limits, k + 1, moved);
    }
    store::put_rule(bytes, limits, i, rule);
    store::put_count(bytes, Count::Rules, count + 1)
}

// The rule at place i taken away: those after it move down.
pub fn remove_rule(bytes: &mut [u8], limits: Limits, i: usize)
    requires { Laid limits bytes.old × (i < rule_count bytes.old) × (rule_count bytes.old ≤ limits.rules) }
    ensures { bytes.new ≡ remove_rule bytes.old i }
{
    let count = store::get_count(bytes, Count::Rules);
    for k in i..count - 1 {
        let moved = store::get_rule(bytes, limits, k + 1);
        store::put_rule(bytes, limits, k, moved);
    }
    store::put_count(bytes, Count::Rules, count - 1)
}

// Each root's new number.
#[tactic(auto, using(crate::proofs::RulesLaws::renumber_more), unfolding(crate::specs::Changes::renumber_roots))]
pub fn renumber_roots(bytes: &mut [u8], limits: Limits, news: &[u16])
    requires { Laid limits bytes.old × (rule_count bytes.old ≤ limits.rules) × RootsBelow bytes.old (length news.now) }
    ensures { bytes.new ≡ renumber_roots bytes.old news.now (rule_count bytes.old) }
{
    for i in 0..store::get_count(bytes, Count::Rules) {
        let rule = store::get_rule(bytes, limits, i);
        let root = u32::from(news[rule.root as usize]);
        store::put_rule(bytes, limits, i, Rule { root, ..rule });
    }
}

// A part's number put at place k of the n entries of the order table in use: those from there on move up.
// The loop is `insert_rule`'s over another table: one over both would take the table as a trait of two impls, longer than both loops.
pub fn insert_entry(bytes: &mut [u8], limits: Limits, n: usize, k: usize, part: u16)
    requires { Laid limits bytes.old × (k ≤ n) × (n < limits.parts) }
    ensures { bytes.new ≡ insert_entry limits bytes.old n k part }
{
    for j in (k..n).rev() {
        let moved = store::get_entry(bytes, limits, j);
        store::put_entry(bytes, limits, j + 1, moved);
    }
    store::put_entry(bytes, limits, k, part)
}
