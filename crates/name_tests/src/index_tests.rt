//! Indices beside a plain scan and beside each other, large ones, and the names that changes place.
ghost use Rattle.std.specs.Prelude.{◌≡◌, ◌<◌, ◌≤◌, length, IfOk};
ghost use Rattle.generic_names.specs.declared.kind.NameKind.TheVariants.{General};
ghost use Rattle.generic_names.specs.Laws.{IsPattern};
ghost use Rattle.profile_index.specs.Indexed.{AreOf};

use generic_names::{NameKind, Pattern, Resource};
use profile_index::{Entry, Index, Made, NoMemory, SharedIndex, Steps};
use std::alloc::Global;
use std::marker::Brand;
use std::process::Abort;
use std::sync::ledger::{Blank, Ledger};

/// Random numbers, the same in each run.
#[derive(Drop)]
struct Numbers(u32);

impl Numbers {
    fn below(&mut self, n: u32) -> u32
        requires { 0 < n }
        ensures { result < n }
    {
        self.0 = self.0.wrapping_mul(1_664_525).wrapping_add(1_013_904_223);
        (self.0 >> 8) % n
    }
}

/// Stores a pattern under a number, unless it is there.
fn add(index: &mut Index<u32>, text: &[u8], item: u32) -> Result<bool, NoMemory>
    requires { AreOf General index.old.entries }
    ensures { AreOf General index.new.entries }
{
    let Ok(pattern) = Pattern::read(NameKind::General, text) else {
        return Ok(false);
    };
    if index.find_named(&pattern).is_some() {
        return Ok(false);
    }
    index.reserve(1)?;
    index.insert(pattern, item);
    Ok(true)
}

/// An index with 1 under each of these names.
fn index_of(rt: &(impl AllocGlobal + Abort), names: &[&[u8]]) -> Index<u32>
    ensures { AreOf General result.entries }
{
    let mut index = Index::new(rt.alloc()).expect(rt, "memory");
    for name in names {
        assert!(rt; add(&mut index, name, 1).is_ok());
    }
    index
}

/// A qualifier of a random pattern, or of a random name.
fn part(number: u32, generic: bool) -> &'static [u8] {
    match number {
        0 => b"A",
        1 => b"B",
        2 => b"AB",
        3 if generic => b"A%",
        4 if generic => b"A*",
        5 if generic => b"*",
        6 if generic => b"**",
        7 if generic => b"%B",
        _ => b"BA",
    }
}

/// A random name of one to four qualifiers.
fn random_text(rt: &(impl AllocGlobal + Abort), numbers: &mut Numbers, generic: bool) -> Vec<u8> {
    let mut text = Vec::new(rt.alloc());
    for k in 0..numbers.below(4) + 1 {
        let dot = if k > 0 { b".".as_slice() } else { b"" };
        let part = part(numbers.below(9), generic);
        assert!(rt; text.extend_from_slice(dot).is_ok());
        assert!(rt; text.extend_from_slice(part).is_ok());
    }
    text
}

/// A random pattern.
fn random_pattern(rt: &(impl AllocGlobal + Abort), numbers: &mut Numbers) -> Pattern
    ensures { result.kind ≡ General }
{
    let text = random_text(rt, numbers, true);
    Pattern::read(NameKind::General, &text).expect(rt, "a lawful pattern")
}

/// A random name of a resource.
fn random_resource(rt: &(impl AllocGlobal + Abort), numbers: &mut Numbers) -> Resource
    ensures { result.kind ≡ General }
{
    let text = random_text(rt, numbers, false);
    Resource::read(NameKind::General, &text).expect(rt, "a lawful name")
}

/// An index of some random patterns.
fn random_index(rt: &(impl AllocGlobal + Abort), numbers: &mut Numbers) -> Index<u32>
    ensures { AreOf General result.entries }
{
    let mut index = Index::new(rt.alloc()).expect(rt, "memory");
    for item in 0..30u32 {
        let text = random_text(rt, numbers, true);
        assert!(rt; add(&mut index, &text, item).is_ok());
    }
    index
}

/// The plain scan: the covering entry that is before all other covering ones.
fn scanned(index: &Index<u32>, name: &Resource) -> Option<usize> {
    let mut best: Option<usize> = None;
    for place in 0..index.len() {
        if covers_at(index, place, name)
            && best.is_none_or(|other| is_before(index, place, other))
        {
            best = Some(place);
        }
    }
    best
}

fn covers_at(index: &Index<u32>, place: usize, name: &Resource) -> bool {
    if place >= index.len() {
        return false;
    }
    let (pattern, _) = index.at(place);
    match (pattern.kind(), name.kind()) {
        (NameKind::General, NameKind::General) => pattern.covers(name),
        _ => false,
    }
}

fn is_before(index: &Index<u32>, place: usize, other: usize) -> bool {
    if place >= index.len() || other >= index.len() {
        return false;
    }
    let (first, _) = index.at(place);
    let (second, _) = index.at(other);
    match (first.kind(), second.kind()) {
        (NameKind::General, NameKind::General) => first.before(second),
        _ => false,
    }
}

/// How many of some random names are found as a scan finds them.
fn count_alike(
    rt: &(impl AllocGlobal + Abort),
    numbers: &mut Numbers,
    index: &Index<u32>,
    names: u32,
) -> u32
    requires { AreOf General index.now.entries }
{
    let mut alike = 0u32;
    for _name in 0..names {
        let name = random_resource(rt, numbers);
        if index.find(&name) == scanned(index, &name) {
            alike = alike.wrapping_add(1);
        }
    }
    alike
}

#[test]
fn finds_what_a_scan_finds(rt: HostRuntime) {
    let mut numbers = Numbers(1);
    for _table in 0..100u32 {
        let index = random_index(&rt, &mut numbers);
        assert!(rt; count_alike(&rt, &mut numbers, &index, 40) == 40);
    }
}

/// How many of these names are found as very names, by a counter of comparisons over a ledger of its own.
fn count_named<L: Ledger>(index: &Index<u32>, blank: Blank, names: &[&[u8]]) -> u32
    requires name { blank.name ≡ L.name }
    requires parts { blank.parts ≡ L.parts }
    requires some { 0 < blank.parts }
    requires kinds { AreOf General index.now.entries }
{
    let (book, share) = blank.open::<L>();
    let mut steps = Steps::new(book, share);
    let mut found = 0u32;
    for name in names {
        if is_named(index, &mut steps, name) {
            found = found.wrapping_add(1);
        }
    }
    found
}

/// Whether a name is found as the very name of an entry.
fn is_named<L: Ledger>(index: &Index<u32>, steps: &mut Steps<L>, name: &[u8]) -> bool
    requires { AreOf General index.now.entries }
{
    match Resource::read(NameKind::General, name) {
        Ok(name) => index.find_discrete(&name, steps).is_some(),
        Err(_) => false,
    }
}

/// The same, over a ledger that only this call has.
fn count_with_a_ledger(index: &Index<u32>, names: &[&[u8]]) -> u32
    requires { AreOf General index.now.entries }
{
    count_named::<Brand>(index, Blank::new(1), names)
}

/// Patterns, four of them without a generic character.
const PATTERNS: [&[u8]; 7] = [b"A.B", b"A.*", b"B", b"A.%", b"C.D", b"**", b"A"];

#[test]
fn finds_very_names(rt: HostRuntime) {
    let index = index_of(&rt, &PATTERNS);
    let there = [b"A".as_slice(), b"A.B", b"B", b"C.D"];
    let absent = [b"A.C".as_slice(), b"C", b"D", b"AA"];
    assert!(rt; count_with_a_ledger(&index, &there) == 4);
    assert!(rt; count_with_a_ledger(&index, &absent) == 0);
}

/// Whether the first entry under that qualifier has that name; there is none where it is empty.
fn is_first_under(index: &Index<u32>, qualifier: &[u8], name: &[u8]) -> bool
    requires { length qualifier.now ≤ 246 }
{
    match index.first_under(qualifier) {
        Some(place) => index.at(place).0.text() == name,
        None => name.is_empty(),
    }
}

/// Names under qualifiers of which some begin like others.
const UNDER_QUALIFIERS: [&[u8]; 6] = [b"AB.**", b"AB", b"AB.C", b"A%.X", b"ABC.D", b"**.Z"];

/// The names under one first qualifier are found behind those that are lower, and a qualifier that is only the front of
/// another isn't taken for it.
#[test]
fn finds_the_first_under_a_qualifier(rt: HostRuntime) {
    let index = index_of(&rt, &UNDER_QUALIFIERS);
    assert!(rt; is_first_under(&index, b"AB", b"AB.C"));
    assert!(rt; is_first_under(&index, b"ABC", b"ABC.D"));
    assert!(rt; is_first_under(&index, b"A%", b"A%.X"));
    assert!(rt; is_first_under(&index, b"**", b"**.Z"));
    assert!(rt; is_first_under(&index, b"A", b""));
    assert!(rt; is_first_under(&index, b"Z", b""));
}

/// The digit of a number at a power of ten.
fn digit(number: u32, power: u32) -> u8
    requires { 0 < power }
{
    b'0' + (number / power % 10) as u8
}

/// A qualifier of a letter and five digits.
fn qualifier(letter: u8, number: u32) -> [u8; 6] {
    [
        letter,
        digit(number, 10_000),
        digit(number, 1_000),
        digit(number, 100),
        digit(number, 10),
        digit(number, 1),
    ]
}

/// Writes a name of a numbered first qualifier, which as many items as this have, a numbered second one, and this end.
fn write_name(rt: &impl Abort, text: &mut Vec<u8>, item: u32, each: u32, end: &[u8])
    requires { 0 < each }
{
    text.clear();
    assert!(rt;
        text.extend_from_slice(&qualifier(b'Q', item / each))
            .is_ok()
    );
    assert!(rt; text.extend_from_slice(b".").is_ok());
    assert!(rt; text.extend_from_slice(&qualifier(b'P', item)).is_ok());
    assert!(rt; text.extend_from_slice(end).is_ok());
}

/// An index of 50,000 patterns, of which as many as this have each first qualifier.
fn large(rt: &(impl AllocGlobal + Abort), each: u32) -> Index<u32>
    requires { 0 < each }
    ensures { AreOf General result.entries }
{
    let mut text = Vec::new(rt.alloc());
    let mut index = Index::new(rt.alloc()).expect(rt, "memory");
    for number in 0..50_000u32 {
        let item = number * 7_919 % 50_000;
        write_name(rt, &mut text, item, each, b".**");
        assert!(rt; add(&mut index, &text, item).is_ok());
    }
    index
}

/// Whether a name is found.
fn is_found(index: &Index<u32>, name: &[u8]) -> bool
    requires { AreOf General index.now.entries }
{
    match Resource::read(NameKind::General, name) {
        Ok(name) => index.find(&name).is_some(),
        Err(_) => false,
    }
}

/// How many of a million names are found, each by the one pattern that covers it.
fn count_found(rt: &(impl AllocGlobal + Abort), index: &Index<u32>, each: u32) -> u32
    requires kinds { AreOf General index.now.entries }
    requires each { 0 < each }
{
    let mut text = Vec::new(rt.alloc());
    let mut found = 0u32;
    for round in 0..1_000_000u32 {
        write_name(rt, &mut text, round % 60_000, each, b".X");
        if is_found(index, &text) {
            found = found.wrapping_add(1);
        }
    }
    found
}

#[test]
fn answers_a_million_times(rt: HostRuntime) {
    for each in [10, 50_000] {
        let index = large(&rt, each);
        assert!(rt; index.len() == 50_000);
        assert!(rt; count_found(&rt, &index, each) == 840_000);
    }
}

/// A name is spelled as one. It does nothing: its contract is what it is for.
fn is_spelled(name: &Pattern)
    ensures { IsPattern name.now }
{
    let _text = name.text();
}

/// An index of one entry.
fn single(alloc: Global, name: Pattern, item: u32) -> Result<SharedIndex<u32>, NoMemory>
    ensures { IfOk result (λ index. AreOf name.kind index) }
{
    is_spelled(&name);
    let mut entries = Vec::new(alloc);
    entries.push(Entry { name, item })?;
    SharedIndex::of(alloc, entries)
}

/// The names in their order, with spaces between them.
fn names_of(rt: &(impl AllocGlobal + Abort), index: &SharedIndex<u32>) -> Vec<u8> {
    let mut names = Vec::new(rt.alloc());
    for place in 0..index.len() {
        let (name, _) = index.at(place);
        let space = if place > 0 { b" ".as_slice() } else { b"" };
        assert!(rt; names.extend_from_slice(space).is_ok());
        assert!(rt; names.extend_from_slice(name.text()).is_ok());
    }
    names
}

/// An index with an item under a name, or without the name where the item is 0.
fn changed(
    alloc: Global,
    index: &SharedIndex<u32>,
    name: Pattern,
    item: u32,
) -> Result<SharedIndex<u32>, NoMemory>
    requires { AreOf name.kind index.now }
    ensures { IfOk result (λ index. AreOf name.kind index) }
{
    if item == 0 {
        return index.without(alloc, &name);
    }
    index.with_entry(alloc, name, item)
}

/// The item that is found for a resource, or 0.
fn item_for(index: &SharedIndex<u32>, name: &[u8]) -> u32
    requires { AreOf General index.now }
{
    let Ok(name) = Resource::read(NameKind::General, name) else {
        return 0;
    };
    match index.find(&name) {
        Some(entry) => entry.item,
        None => 0,
    }
}

/// The pattern of that text, which is lawful.
fn pattern(rt: &impl Abort, text: &[u8]) -> Pattern
    ensures { result.kind ≡ General }
{
    Pattern::read(NameKind::General, text).expect(rt, "a lawful pattern")
}

/// A name with its item, 0 where the name goes, the names that are then there, and the item for `A.B`.
type Change = (&'static [u8], u32, &'static [u8], u32);

/// Names that come, are replaced and go.
const CHANGES: [Change; 8] = [
    (b"A.*", 1, b"A.*", 1),
    (b"**", 2, b"A.* **", 1),
    (b"A.B", 3, b"A.B A.* **", 3),
    (b"A.*", 4, b"A.B A.* **", 3),
    (b"A.B", 0, b"A.* **", 4),
    (b"C", 5, b"A.* C **", 4),
    (b"A.*", 0, b"C **", 2),
    (b"X", 0, b"C **", 2),
];

/// Whether an index has these names, and this item for `A.B`.
fn shows(
    rt: &(impl AllocGlobal + Abort),
    index: &SharedIndex<u32>,
    names: &[u8],
    found: u32,
) -> bool
    requires { AreOf General index.now }
{
    names_of(rt, index).as_slice() == names && item_for(index, b"A.B") == found
}

/// The index with that item under the name, or without the name. It has these names, and this item for `A.B`.
fn later(
    rt: &(impl AllocGlobal + Abort),
    index: &SharedIndex<u32>,
    change: Change,
) -> SharedIndex<u32>
    requires { AreOf General index.now }
    ensures { AreOf General result }
{
    let (name, item, names, found) = change;
    let name = pattern(rt, name);
    let later = changed(rt.alloc(), index, name, item).expect(rt, "memory");
    assert!(rt; shows(rt, &later, names, found));
    later
}

/// Names that come, are replaced and go, each with the names that are then there, and the item for `A.B`.
#[test]
fn worked_rows(rt: HostRuntime) {
    let mut index = SharedIndex::new(rt.alloc());
    for row in &CHANGES {
        index = later(&rt, &index, *row);
    }
}

/// Whether both have the same entries, and find the same for a name.
fn is_same(shared: &SharedIndex<u32>, index: &Index<u32>, name: &Resource) -> bool
    requires kinds { AreOf General index.now.entries }
    requires same { AreOf General shared.now }
    requires kind { name.now.kind ≡ General }
{
    for place in 0..index.len() {
        if place >= shared.len() {
            return false;
        }
        let (name, item) = index.at(place);
        let (other, number) = shared.at(place);
        if name.text() != other.text() || item != number {
            return false;
        }
    }
    shared.len() == index.len() && finds_same(shared, index, name)
}

/// Whether both find the same for a name.
fn finds_same(shared: &SharedIndex<u32>, index: &Index<u32>, name: &Resource) -> bool
    requires kinds { AreOf General index.now.entries }
    requires same { AreOf General shared.now }
    requires kind { name.now.kind ≡ General }
{
    match (shared.find(name), index.find(name)) {
        (Some(entry), Some(place)) => {
            let (other, item) = index.at(place);
            entry.name.text() == other.text() && entry.item == *item
        }
        (None, None) => true,
        _ => false,
    }
}

/// Puts an item under a name, or takes the name out where the item is 0.
fn change(index: &mut Index<u32>, name: Pattern, item: u32) -> Result<(), NoMemory>
    requires { AreOf name.kind index.old.entries }
    ensures { AreOf name.kind index.new.entries }
{
    if item == 0 {
        let _item = index.remove(&name);
        return Ok(());
    }
    index.reserve(1)?;
    let _item = index.put(name, item);
    Ok(())
}

/// Makes the same change of both indices.
fn change_both(
    rt: &(impl AllocGlobal + Abort),
    index: &mut Index<u32>,
    shared: &SharedIndex<u32>,
    name: Pattern,
    item: u32,
) -> SharedIndex<u32>
    requires kinds { AreOf name.kind index.old.entries }
    requires same { AreOf name.kind shared.now }
    ensures kinds { AreOf name.kind index.new.entries }
    ensures same { AreOf name.kind result }
{
    assert!(rt; change(index, name, item).is_ok());
    changed(rt.alloc(), shared, name, item).expect(rt, "memory")
}

/// That number, and 0 in one of three cases.
fn random_item(numbers: &mut Numbers, number: u32) -> u32 {
    if numbers.below(3) == 0 { 0 } else { number }
}

/// How many of some random changes make the same of both indices.
fn count_changes(rt: &(impl AllocGlobal + Abort), numbers: &mut Numbers, changes: u32) -> u32 {
    let mut index = Index::new(rt.alloc()).expect(rt, "memory");
    let mut shared = SharedIndex::new(rt.alloc());
    let mut alike = 0u32;
    for change_number in 0..changes {
        let pattern = random_pattern(rt, numbers);
        let name = random_resource(rt, numbers);
        let item = random_item(numbers, change_number);
        shared = change_both(rt, &mut index, &shared, pattern, item);
        if is_same(&shared, &index, &name) {
            alike = alike.wrapping_add(1);
        }
    }
    alike
}

#[test]
fn changes_like_an_index(rt: HostRuntime) {
    let mut numbers = Numbers(5);
    assert!(rt; count_changes(&rt, &mut numbers, 400) == 400);
}

/// Whether an index has that name, once it is shared.
fn has_shared(alloc: Global, index: &SharedIndex<u32>, name: &Pattern) -> bool
    requires { AreOf name.now.kind index.now }
{
    match index.share(alloc) {
        Ok(index) => index.find_named(name).is_some(),
        Err(_) => false,
    }
}

/// Whether an index has 1 for `A.B`, and one with 2 in its place has 2.
fn is_kept(alloc: Global, index: &SharedIndex<u32>, name: Pattern) -> bool
    requires kind { name.kind ≡ General }
    requires kinds { AreOf General index.now }
{
    match index.with_entry(alloc, name, 2) {
        Ok(later) => item_for(index, b"A.B") == 1 && item_for(&later, b"A.B") == 2,
        Err(_) => false,
    }
}

/// A change leaves the index before it as it was.
#[test]
fn keeps_what_was_before(rt: HostRuntime) {
    let name = pattern(&rt, b"A.*");
    let index = single(rt.alloc(), name, 1).expect(&rt, "memory");
    assert!(rt; is_kept(rt.alloc(), &index, name));
    assert!(rt; has_shared(rt.alloc(), &index, &name));
}

/// An index with 1 under a name of general resources.
fn put_one(
    rt: &(impl AllocGlobal + Abort),
    index: &SharedIndex<u32>,
    text: &[u8],
) -> Made<SharedIndex<u32>>
    requires { AreOf General index.now }
    ensures { AreOf General result.what }
{
    let name = pattern(rt, text);
    index.put(rt.alloc(), name, 1).expect(rt, "memory")
}

/// The same, where this is how much the change places.
fn place(
    rt: &(impl AllocGlobal + Abort),
    index: &SharedIndex<u32>,
    text: &[u8],
    placed: usize,
) -> SharedIndex<u32>
    requires { AreOf General index.now }
    ensures { AreOf General result }
{
    let made = put_one(rt, index, text);
    assert!(rt; made.placed == placed);
    made.what
}

/// Names that are put one behind the other, and how much each change places.
const PLACED: [(&[u8], usize); 7] = [
    (b"A.B", 3),
    (b"B.C", 3),
    (b"A.**", 7),
    (b"*.C", 3),
    (b"**", 5),
    (b"A.B", 7),
    (b"C", 1),
];

/// The index of these names.
fn few_names(rt: &(impl AllocGlobal + Abort)) -> SharedIndex<u32>
    ensures { AreOf General result }
{
    let mut index = SharedIndex::new(rt.alloc());
    for (text, placed) in &PLACED {
        index = place(rt, &index, text, *placed);
    }
    index
}

/// A name of nine bytes, whose first qualifier is D.
fn under_d(number: u32) -> [u8; 9] {
    let [_, a, b, c, d, e] = qualifier(b'E', number);
    [b'D', b'.', b'E', b'0', a, b, c, d, e]
}

/// A change makes anew the bucket of the name's first qualifier, or the one of generic first qualifiers; a bucket of 16
/// that takes one more becomes two.
#[test]
fn makes_one_bucket_anew(rt: HostRuntime) {
    let mut index = few_names(&rt);
    for number in 0..18u32 {
        let placed = match number {
            16 => 17 * 9,
            17 => 10 * 9,
            _ => (number as usize + 1) * 9,
        };
        index = place(&rt, &index, &under_d(number), placed);
    }
}

/// A name of ten bytes, which stands alone under its first qualifier.
fn alone(number: u32) -> [u8; 10] {
    let [_, a, b, c, d, e] = qualifier(b'U', number);
    [b'U', b'0', a, b, c, d, e, b'.', b'*', b'*']
}

/// Whether a name that is there is placed alone once it is put again.
fn places_one_again(rt: &(impl AllocGlobal + Abort), index: &SharedIndex<u32>) -> bool
    requires { AreOf General index.now }
{
    let made = put_one(rt, index, b"U000500.**");
    made.placed == 10 && made.what.len() == 1_000
}

/// Each of 1,000 names stands alone in the bucket of its first qualifier, and a change of one places that name again.
#[test]
fn places_one_name_of_a_thousand(rt: HostRuntime) {
    let mut index = SharedIndex::new(rt.alloc());
    for number in 1..1_001u32 {
        index = place(&rt, &index, &alone(number), 10);
    }
    assert!(rt; places_one_again(&rt, &index));
}
