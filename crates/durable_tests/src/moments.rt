//! What a crash may leave of a disk at the moment at which one of its calls fails, right before the call or within it.

use crate::files::length_of;
use crate::runs::Ended;
use crate::stops::{Call, Row, Stop, assert_answers, assert_stands, byte_at};
use std::process::Abort;
use std::sync::Wait;
use std::thread::Threads;

/// What is in doubt since the last sync, by the calls of the table: those from this one on; the places from one up to
/// another, which lie side by side; and all behind the shortest end, up to the longest.
#[derive(Clone, Copy)]
struct Doubt {
    since: usize,
    from: usize,
    to: usize,
    shortest: usize,
    longest: usize,
}

impl Doubt {
    /// Nothing is in doubt from this call on, where the file has this length.
    fn none(since: usize, length: usize) -> Doubt {
        Doubt {
            since,
            from: usize::MAX,
            to: 0,
            shortest: length,
            longest: length,
        }
    }

    /// The same behind a call, or within it, which leaves the file this long.
    fn with(self, call: Call, length: usize) -> Doubt {
        let (from, to) = match call {
            Call::Write(from, to) => (self.from.min(from), self.to.max(to)),
            _ => (self.from, self.to),
        };
        Doubt {
            since: self.since,
            from,
            to,
            shortest: self.shortest.min(length),
            longest: self.longest.max(length),
        }
    }

    /// Whether this place is in doubt.
    fn has(self, place: usize) -> bool {
        self.shortest <= place || self.from <= place && place < self.to
    }

    /// Whether images of this end are tried: the first and the last ones, and of those between every sixteenth.
    fn is_tried(self, end: usize) -> bool {
        end <= 48 || end % 16 == 0 || end.saturating_add(36) >= self.longest
    }
}

/// The length of a file behind a call.
fn length_behind(call: Call, length: usize) -> usize {
    match call {
        Call::Write(_, to) => length.max(to),
        Call::Cut(to) => to,
        Call::Read | Call::Sync => length,
    }
}

/// What is in doubt where the call at this place fails.
fn doubt_at(row: &Row, place: usize) -> Doubt {
    let (first, second) = &row.deed.held;
    let mut length = length_of(if row.second { second } else { first });
    let mut doubt = Doubt::none(0, length);
    for (number, call) in row.calls.iter().enumerate() {
        if number <= place {
            length = length_behind(*call, length);
            doubt = doubt.with(*call, length);
        }
        if number < place && matches!(call, Call::Sync) {
            doubt = Doubt::none(number.saturating_add(1), length);
        }
    }
    doubt
}

/// What the disk reads as behind the first so many calls.
fn bytes_behind(
    rt: &(impl AllocGlobal + Abort + Wait + Threads + Sync),
    row: &Row,
    calls: usize,
) -> Vec<u8> {
    let stop = Stop { row, place: calls };
    let Ended { disks, .. } = stop.run(rt, false);
    let (disk, _) = stop.by_role(disks);
    disk.into_bytes()
}

/// The moment at which a call fails: what the disk read as when all was synced, what it reads as, and what it would
/// read as behind the call.
#[derive(Drop)]
struct Moment {
    synced: Vec<u8>,
    now: Vec<u8>,
    behind: Vec<u8>,
    doubt: Doubt,
}

/// What stands in the places that are in doubt.
#[derive(Clone, Copy)]
enum Filler {
    /// What was there when all was synced.
    Synced,
    /// What is there behind the call.
    Behind,
    /// What is there behind the call in the first half, and else what was there.
    Half,
    /// This byte.
    Byte(u8),
}

/// What is tried in the places that are in doubt.
const FILLERS: &[Filler] = &[
    Filler::Synced,
    Filler::Behind,
    Filler::Half,
    Filler::Byte(0),
    Filler::Byte(1),
    Filler::Byte(2),
    Filler::Byte(0xFF),
];

impl Moment {
    /// The byte that an image has at a place.
    fn byte(&self, filler: Filler, place: usize) -> u8 {
        if !self.doubt.has(place) {
            return byte_at(&self.now, place);
        }
        match filler {
            Filler::Half if place < self.doubt.longest / 2 => byte_at(&self.behind, place),
            Filler::Synced | Filler::Half => byte_at(&self.synced, place),
            Filler::Behind => byte_at(&self.behind, place),
            Filler::Byte(byte) => byte,
        }
    }

    /// The image of that end.
    fn image(&self, rt: &(impl AllocGlobal + Abort), filler: Filler, end: usize) -> Vec<u8> {
        let mut image = Vec::new(rt.alloc());
        for place in 0..end {
            assert!(rt; image.push(self.byte(filler, place)).is_ok());
        }
        image
    }
}

/// Opens an image. A new database is made over what is left itself, and not over each image of it.
fn assert_image(
    rt: &(impl AllocGlobal + Abort + Wait + Threads + Sync),
    stop: &Stop<'_>,
    image: &[u8],
    other: &[u8],
) {
    if stop.row.deed.makes {
        let _disks = assert_answers(rt, stop, image, other);
    } else {
        assert_stands(rt, stop, image, other);
    }
}

/// Opens the images of the moment that have this in the places that are in doubt.
fn assert_images(
    rt: &(impl AllocGlobal + Abort + Wait + Threads + Sync),
    stop: &Stop<'_>,
    moment: &Moment,
    other: &[u8],
    filler: Filler,
) {
    for end in moment.doubt.shortest..=moment.doubt.longest {
        if moment.doubt.is_tried(end) {
            let image = moment.image(rt, filler, end);
            assert_image(rt, stop, &image, other);
        }
    }
}

/// Opens the images of the moment at which the call fails.
pub(crate) fn assert_moment(
    rt: &(impl AllocGlobal + Abort + Wait + Threads + Sync),
    stop: &Stop<'_>,
) {
    let doubt = doubt_at(stop.row, stop.place);
    let Ended { disks, .. } = stop.run(rt, false);
    let (disk, other) = stop.by_role(disks);
    let moment = Moment {
        synced: bytes_behind(rt, stop.row, doubt.since),
        now: disk.into_bytes(),
        behind: bytes_behind(rt, stop.row, stop.place.saturating_add(1)),
        doubt,
    };
    for filler in FILLERS {
        assert_images(rt, stop, &moment, other.bytes(), *filler);
    }
}
