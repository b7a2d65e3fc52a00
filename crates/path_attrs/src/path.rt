//! AS_PATH: the ASes that a route has passed, in segments (RFC 4271, section 4.3).

ghost use Rattle.std.specs.Prelude.{◌≡◌, ◌+◌, ◌*◌, ◌/◌, ◌<◌, ◌≤◌, [], ◌∷◌, ◌++◌, ◌%◌, false, not, ◌^◌, length, ◌==◌, sum_by, slice_index, IfOk, IfNone, IfSome, IsTrue, MatchOption};
ghost use Rattle.std.specs.Int.{byte_len};
ghost use Rattle.std.specs.List.{flat_map, list_any};
ghost use Rattle.rcp_model.specs.Attributes.{is_faulty_path, numbers_in, segment_of, segments_in, number_width};
ghost use Rattle.rcp_model.specs.Messages.{is_outside};
ghost use Rattle.path_attrs.specs.Appending.{Appends};
ghost use Rattle.path_attrs.specs.Segments.{kind_octet, segment_octets, path_octets};
ghost use Rattle.rcp_model.specs.Routes.{hops_of, neighbour_of};
ghost use Rattle.path_attrs.specs.Width.{number_octets};

use crate::numbers::{AsNumber, NUMBER_LEN, put_number, split_number};
use octet_room::Room;
use smallvec::SmallVec;
use std::alloc::{AllocError, Global};
use std::default::MadeWith;
use std::marker::Model;

/// The numbers of a segment, most of which have few.
type Numbers = SmallVec<AsNumber, 8>;

/// What the numbers of a segment are.
#[derive(Clone, Copy, Debug, PartialEq, Eq)]
pub enum SegmentKind {
    /// ASes in no order.
    AsSet = 1,
    /// ASes in the order in which the route was passed on, the last one first.
    AsSequence = 2,
}

impl SegmentKind {
    /// The kind of an octet, or None where it is neither 1 nor 2.
    fn from_octet(octet: u8) -> Option<SegmentKind>
        ensures { MatchOption result (IsTrue (is_outside 1 2 octet)) (λ kind. kind_octet kind ≡ octet) }
    {
        match octet {
            1 => Some(SegmentKind::AsSet),
            2 => Some(SegmentKind::AsSequence),
            _ => None,
        }
    }
}

/// A segment of a path. Contracts see its kind and its numbers.
#[derive(Debug, Drop)]
pub struct Segment {
    kind: SegmentKind,
    numbers: Numbers,
}

impl Model for Segment {
    ghost use Rattle.std.specs.Prelude.{◌≤◌, length};
    ghost use Rattle.rcp_model.specs.Attributes.{Segment as Shown};
    ghost use Rattle.path_attrs.specs.Segments.{kind_octet};

    ghost Value = { Shown };

    ghost view = { λ s. record { kind = kind_octet s.kind; numbers = s.numbers.items } };

    ghost invariant = { λ s. length s.numbers.items ≤ 255 };
}

// What stands in the places of a `SmallVec` that aren't used yet.
impl MadeWith<Global> for Segment {
    fn made_with(alloc: Global) -> Segment {
        Segment {
            kind: SegmentKind::AsSequence,
            numbers: SmallVec::new(alloc),
        }
    }
}

/// A path: its segments, of which most paths have one.
#[derive(Debug, Drop)]
pub struct Path {
    segments: SmallVec<Segment, 1>,
}

impl Model for Path {
    ghost use Rattle.std.specs.Prelude.{◌≡◌, List};
    ghost use Rattle.rcp_model.specs.Attributes.{Segment as Shown, number_width, segments_in};
    ghost use Rattle.path_attrs.specs.Segments.{path_octets};

    ghost Value = { List Shown };

    ghost view = { λ p. p.segments.items };

    ghost invariant = { λ p. segments_in number_width (path_octets p.segments.items) ≡ p.segments.items };
}

impl Path {
    /// The path of the octets.
    pub fn read(alloc: Global, octets: &[u8]) -> Result<Path, AllocError>
        requires { is_faulty_path number_width octets.now ≡ false }
        ensures { IfOk result (λ path. path_octets path ≡ octets.now) }
    {
        let mut segments = SmallVec::new(alloc);
        let mut rest = octets;
        while let Some((kind, numbers, after)) = front_segment(rest) {
            segments.push(read_segment(alloc, kind, numbers)?)?;
            rest = after;
        }
        Ok(Path { segments })
    }

    /// How many octets the path has.
    pub fn octets_len(&self) -> usize
        requires { length (path_octets self.now) < 2 ^ 16 }
        ensures { result ≡ length (path_octets self.now) }
    {
        segments_len(self.segments.as_slice())
    }

    /// Puts the path at a place, and gives the place after it.
    pub fn put<R: Room>(&self, out: &mut R, at: usize) -> usize
        requires place { R.is_place out.old at }
        requires room { at + length (path_octets self.now) ≤ R.size out.old }
        ensures appends { Appends (R.octets out.old) at (R.octets out.new) result (path_octets self.now) }
        ensures place { R.is_place out.new result }
        ensures size { R.size out.old ≤ R.size out.new }
    {
        put_segments(out, at, self.segments.as_slice())
    }

    /// The segments.
    pub fn segments(&self) -> &[Segment]
        ensures segments { result.now ≡ self.now }
        ensures read { segments_in number_width (path_octets self.now) ≡ self.now }
    {
        self.segments.as_slice()
    }
}

/// How long a path counts in the decision (RFC 4271, section 9.1.2.2).
pub fn hops(segments: &[Segment]) -> u32
    requires { sum_by hops_of segments.now < 2 ^ 32 }
    ensures { result ≡ sum_by hops_of segments.now }
{
    segments.iter().map(|segment| segment.hops()).sum()
}

/// The AS that the route was learned from: the first number of a path that begins with a sequence, else the local AS.
pub fn neighbour(segments: &[Segment], local_as: u32) -> u32
    ensures { result ≡ neighbour_of local_as segments.now }
{
    match segments {
        [first, ..] => first.neighbour(local_as),
        [] => local_as,
    }
}

/// Whether an AS stands in a path (RFC 4271, section 9.1.2).
pub fn passes(segments: &[Segment], as_number: u32) -> bool
    ensures { result ≡ list_any (λ segment. list_any (λ n. n == as_number) segment.numbers) segments.now }
{
    segments.iter().any(|segment| segment.has(as_number))
}

impl Segment {
    /// How many octets the segment has.
    fn octets_len(&self) -> usize
        ensures { result ≡ length (segment_octets self.now) }
    {
        2 + self.numbers.len() * NUMBER_LEN
    }

    /// Puts the segment at a place, and gives the place after it.
    fn put<R: Room>(&self, out: &mut R, at: usize) -> usize
        requires place { R.is_place out.old at }
        requires room { at + length (segment_octets self.now) ≤ R.size out.old }
        ensures appends { Appends (R.octets out.old) at (R.octets out.new) result (segment_octets self.now) }
        ensures place { R.is_place out.new result }
        ensures size { R.size out.old ≤ R.size out.new }
    {
        let at = out.put(at, &[self.kind as u8, self.numbers.len() as u8]);
        put_numbers(out, at, self.numbers.as_slice())
    }

    /// How long the segment counts (RFC 4271, section 9.1.2.2): each number of a sequence one, a set one.
    fn hops(&self) -> u32
        ensures { result ≡ hops_of self.now }
    {
        match self.kind {
            SegmentKind::AsSet => 1,
            SegmentKind::AsSequence => self.numbers.len() as u32,
        }
    }

    /// The first number of a sequence, else the local AS.
    fn neighbour(&self, local_as: u32) -> u32
        ensures { result ≡ neighbour_of local_as (self.now ∷ []) }
    {
        match self.kind {
            SegmentKind::AsSet => local_as,
            SegmentKind::AsSequence => match self.numbers.as_slice() {
                [first, ..] => u32::from(*first),
                [] => local_as,
            },
        }
    }

    /// Whether an AS stands in the segment.
    fn has(&self, as_number: u32) -> bool
        ensures { result ≡ list_any (λ n. n == as_number) self.now.numbers }
    {
        self.numbers
            .as_slice()
            .iter()
            .any(|number| u32::from(*number) == as_number)
    }
}

/// The numbers of octets that are so many whole numbers.
fn read_numbers(alloc: Global, octets: &[u8]) -> Result<Numbers, AllocError>
    requires { length octets.now % byte_len number_width ≡ 0 }
    ensures are_read { IfOk result (λ numbers. numbers.items ≡ numbers_in number_width octets.now) }
    ensures spelled { IfOk result (λ numbers. flat_map number_octets numbers.items ≡ octets.now) }
{
    let mut numbers = SmallVec::new(alloc);
    let mut rest = octets;
    while let Some((number, after)) = split_number(rest) {
        numbers.push(number)?;
        rest = after;
    }
    Ok(numbers)
}

/// Whether octets are no path: one that ends within a segment, or has a malformed one.
pub fn is_malformed(octets: &[u8]) -> bool
    ensures { result ≡ is_faulty_path number_width octets.now }
{
    let mut rest = octets;
    while let Some((_, _, after)) = front_segment(rest) {
        rest = after;
    }
    !rest.is_empty()
}

/// The kind of the segment in front, the octets of its numbers, and those after it. None where there are no octets, and where the
/// segment is malformed: of another kind, with no number, or one that passes the end.
fn front_segment(octets: &[u8]) -> Option<(SegmentKind, &[u8], &[u8])>
    ensures none { IfNone result (is_faulty_path number_width octets.now ≡ not (length octets.now == 0)) }
    ensures spelled { IfSome result (λ front. octets.now
        ≡ kind_octet front.0 ∷ length front.1.now / byte_len number_width ∷ front.1.now ++ front.2.now) }
    ensures whole { IfSome result (λ front. length front.1.now % byte_len number_width ≡ 0) }
    ensures few { IfSome result (λ front. length front.1.now ≤ 255 * byte_len number_width) }
    ensures read { IfSome result (λ front. segments_in number_width octets.now
        ≡ record { kind = kind_octet front.0; numbers = numbers_in number_width front.1.now }
        ∷ segments_in number_width front.2.now) }
    ensures faultless { IfSome result (λ front.
        is_faulty_path number_width octets.now ≡ is_faulty_path number_width front.2.now) }
{
    let (segment, after) = next_segment(octets)?;
    let kind = SegmentKind::from_octet(segment[0])?;
    let numbers = &segment[2..];
    if numbers.is_empty() {
        return None;
    }
    Some((kind, numbers, after))
}

/// The whole segment in front, of any kind and count, and the octets after it. None where there is none.
pub fn next_segment(octets: &[u8]) -> Option<(&[u8], &[u8])>
    ensures none { IfNone result (segments_in number_width octets.now ≡ []) }
    ensures front { IfSome result (λ front. segments_in number_width octets.now
        ≡ segment_of number_width front.0.now ∷ segments_in number_width front.1.now) }
    ensures spelled { IfSome result (λ front. octets.now ≡ front.0.now ++ front.1.now) }
    ensures long { IfSome result (λ front. 2 ≤ length front.0.now) }
    ensures counted { IfSome result (λ front. length front.0.now ≡ 2 + slice_index front.0.now 1 * byte_len number_width) }
    ensures few { IfSome result (λ front. slice_index front.0.now 1 ≤ 255) }
{
    let [_, count, ..] = octets else {
        return None;
    };
    let len = 2 + usize::from(*count) * NUMBER_LEN;
    if octets.len() < len {
        return None;
    }
    Some(octets.split_at(len))
}

/// A segment of this kind with the numbers of the octets.
fn read_segment(alloc: Global, kind: SegmentKind, octets: &[u8]) -> Result<Segment, AllocError>
    requires whole { length octets.now % byte_len number_width ≡ 0 }
    requires few { length octets.now ≤ 255 * byte_len number_width }
    ensures spelled { IfOk result (λ segment. segment_octets segment
        ≡ kind_octet kind ∷ length octets.now / byte_len number_width ∷ octets.now) }
    ensures read { IfOk result (λ segment. segment
        ≡ record { kind = kind_octet kind; numbers = numbers_in number_width octets.now }) }
{
    let numbers = read_numbers(alloc, octets)?;
    Ok(Segment { kind, numbers })
}

/// How many octets segments have.
fn segments_len(segments: &[Segment]) -> usize
    requires { length (path_octets segments.now) < 2 ^ 16 }
    ensures { result ≡ length (path_octets segments.now) }
{
    let mut len = 0;
    for segment in segments {
        len += segment.octets_len();
    }
    len
}

/// Puts segments at a place, and gives the place after them.
fn put_segments<R: Room>(out: &mut R, at: usize, segments: &[Segment]) -> usize
    requires place { R.is_place out.old at }
    requires room { at + length (path_octets segments.now) ≤ R.size out.old }
    ensures appends { Appends (R.octets out.old) at (R.octets out.new) result (path_octets segments.now) }
    ensures place { R.is_place out.new result }
    ensures size { R.size out.old ≤ R.size out.new }
{
    let mut end = at;
    for segment in segments {
        end = segment.put(out, end);
    }
    end
}

/// Puts AS numbers at a place, and gives the place after them.
fn put_numbers<R: Room>(out: &mut R, at: usize, numbers: &[AsNumber]) -> usize
    requires place { R.is_place out.old at }
    requires room { at + length (flat_map number_octets numbers.now) ≤ R.size out.old }
    ensures appends { Appends (R.octets out.old) at (R.octets out.new) result (flat_map number_octets numbers.now) }
    ensures place { R.is_place out.new result }
    ensures size { R.size out.old ≤ R.size out.new }
{
    let mut end = at;
    for number in numbers {
        end = put_number(out, end, *number);
    }
    end
}
