// A reader over a lent bundle, which hands out its frames one by one.
#![tactic(auto)]

ghost use Rattle.std.specs.Prelude.{◌≡◌};
ghost use Rattle.frames.specs.Frames.{handed_at, begun_over, NextAnswer};

use bundle::BadBundle;
use bytes_be::Place;

#[derive(Clone, Copy)]
pub struct Reader<'a> {
    pub bundle: &'a [u8],
    // The index of the frame that it hands out next.
    pub position: usize,
}

// What is handed out, and the position afterwards.
#[derive(Clone, Copy)]
pub struct Handed {
    pub frame: Result<Option<Place>, BadBundle>,
    pub position: usize,
}

// What a reader at this position hands out.
#[tactic(auto, using(crate::proofs::OneByOne::among_sixteen), unfolding(crate::specs::Frames::handed_at))]
pub fn handed_at(bundle: &[u8], position: usize) -> Handed
    ensures { result ≡ handed_at bundle.now position }
{
    let frame = bundle::frame_at(bundle, position);
    let moved = match frame {
        Ok(Some(_)) => position + 1,
        Ok(None) | Err(_) => position,
    };
    Handed {
        frame,
        position: moved,
    }
}

impl<'a> Reader<'a> {
    // A reader that has handed out nothing yet.
    pub fn over(bundle: &'a [u8]) -> Reader<'a>
        ensures { result ≡ begun_over bundle.entry }
    {
        Reader {
            bundle,
            position: 0,
        }
    }

    // Hands out the next frame; none behind the last.
    pub fn next(&mut self) -> Result<Option<Place>, BadBundle>
        ensures { NextAnswer self.old result self.new }
    {
        let handed = handed_at(self.bundle, self.position);
        self.position = handed.position;
        handed.frame
    }
}

// The same for a caller that holds no reader: the position goes in, and the one afterwards comes back.
pub fn hand_out(bundle: &[u8], position: usize) -> Handed
    ensures { result ≡ handed_at bundle.now position }
{
    let mut reader = Reader { bundle, position };
    let frame = reader.next();
    Handed {
        frame,
        position: reader.position,
    }
}
