// Bundles: the frames of a lent bundle, and the writers of a bundle of one frame and of two.
#![tactic(auto)]

ghost use Rattle.std.specs.Prelude.{◌≡◌, [], ◌∷◌, ◌*◌, ◌≤◌};
ghost use Rattle.bytes_be.specs.Part.{put_at};
ghost use Rattle.bundle.specs.Reading.{count_of, length_of, lengths_before, contents_of, frame_of, bad_number};
ghost use Rattle.bundle.specs.Writing.{head_of, Written};

use bytes_be::Place;
use numbered::Numbered;

// What a good bundle's contents say: how many frames there are, where the control frame stands, and the sum of all lengths.
#[derive(Clone, Copy)]
pub struct Contents {
    pub count: usize,
    pub control: Place,
    pub size: u64,
}

// The bundle is not good, and no frame of it is handed out.
#[derive(Clone, Copy, Debug, PartialEq, Eq)]
pub struct BadBundle;

impl Numbered for BadBundle {
    ghost number = { bad_number };

    fn number(&self) -> u8 {
        10
    }
}

// The frame count that the bundle says, be it good or not.
#[tactic(auto, unfolding(crate::specs::Reading::count_of))]
fn count_of(s: &[u8]) -> u16
    ensures { result ≡ count_of s.now }
{
    bytes_be::read(s, 0)
}

// The length of frame k.
#[tactic(auto, unfolding(crate::specs::Reading::length_of))]
fn length_of(s: &[u8], k: usize) -> u32
    requires { k ≤ 16 }
    ensures { result ≡ length_of s.now k }
{
    bytes_be::read(s, 2 + 4 * k)
}

// The sum of the lengths before that of frame k.
#[tactic(auto, using(crate::proofs::Sums::before_more), unfolding(crate::specs::Reading::lengths_before))]
fn lengths_before(s: &[u8], k: usize) -> u64
    requires { k ≤ 16 }
    ensures { (result ≡ lengths_before s.now k) × (result ≤ k * 4294967295) }
{
    let mut sum: u64 = 0;
    for i in 0..k {
        sum += length_of(s, i) as u64;
    }
    sum
}

// What the contents of the bundle say.
#[tactic(auto, unfolding(crate::specs::Reading::contents_of, crate::specs::Reading::good, crate::specs::Reading::start_of, crate::specs::Reading::size_of, crate::specs::Reading::lengths_before))]
pub fn contents_of(s: &[u8]) -> Result<Contents, BadBundle>
    ensures { result ≡ contents_of s.now }
{
    let count = count_of(s) as usize;
    let counted = (1 <= count) & (count <= 16);
    if counted {
        let size = lengths_before(s, count);
        let end = 2 + 4 * count as u64 + size;
        if end == s.len() as u64 {
            let control = Place {
                at: 2 + 4 * count,
                length: length_of(s, 0) as usize,
            };
            return Ok(Contents {
                count,
                control,
                size,
            });
        }
    }
    Err(BadBundle)
}

// The place of the frame at `index`, counted from 0; none where the index is behind the last frame.
#[tactic(auto, using(crate::proofs::Sums::contents_few))]
pub fn frame_at(s: &[u8], index: usize) -> Result<Option<Place>, BadBundle>
    ensures { result ≡ frame_of s.now index }
{
    let Ok(contents) = contents_of(s) else {
        return Err(BadBundle);
    };
    let count = contents.count;
    if count <= index {
        return Ok(None);
    }
    Ok(Some(Place {
        at: 2 + 4 * count + lengths_before(s, index) as usize,
        length: length_of(s, index) as usize,
    }))
}

// Writes the bundle of one frame of 8 bytes, and answers its length, or 0 where there is no room for it.
pub fn write_one(out: &mut [u8], frame: [u8; 8]) -> usize
    ensures { Written (frame ∷ []) out.old result out.new }
{
    if out.len() < 14 {
        return 0;
    }
    bytes_be::copy_at(out, 0, &[0, 1, 0, 0, 0, 8]);
    bytes_be::copy_at(out, 6, &frame);
    14
}

// Writes what stands in front of the second of two frames, the contents and the first frame of 8 bytes, or nothing where there is no room for
// it.
pub fn write_head(out: &mut [u8], first: [u8; 8], size: u32)
    ensures { out.new ≡ put_at out.old 0 (head_of first size) }
{
    let room = 18 <= out.len();
    if room {
        bytes_be::copy_at(out, 0, &[0, 2, 0, 0, 0, 8]);
        bytes_be::store(out, 6, size);
        bytes_be::copy_at(out, 10, &first);
    }
}

// Writes the bundle of a frame of 8 bytes and another, and answers its length, or 0 where it cannot be written.
pub fn write_two(out: &mut [u8], first: [u8; 8], second: &[u8]) -> usize
    ensures { Written (first ∷ second.now ∷ []) out.old result out.new }
{
    let length = second.len();
    // A longer frame has no room in the 4 bytes of its length.
    if 4294967295 < length {
        return 0;
    }
    let room = bytes_be::holds(out.len(), 18, length);
    if !room {
        return 0;
    }
    write_head(out, first, length as u32);
    bytes_be::copy_at(out, 18, second);
    18 + length
}
