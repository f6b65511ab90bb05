// Where things stand in the buffers: in `still` the payload, the table and a copy of what was lent; in `lent` the image and the client's slice.
ghost use Rattle.std.specs.Prelude.{◌≡◌, ◌+◌, ◌<◌, ◌≤◌, MatchOption};
ghost use Rattle.lines.specs.Places.{of_lent};

// The longest payload, and so the longest table, image, slice and room.
pub const LONGEST: usize = 262144;

// Where the table stands in `still`, and the client's slice in `lent`. The payload and the image stand in front of them.
pub const SECOND: usize = 262144;

// Where the copy stands in `still`.
pub const THIRD: usize = 524288;

// A number of bytes, at most LONGEST.
#[derive(Clone, Copy)]
pub struct Size {
    pub bytes: usize,
    pub ghost fits: { bytes ≤ 262144 },
}

// How many bytes the table, the image and the client's slice have.
#[derive(Clone, Copy)]
pub struct Sizes {
    pub table: Size,
    pub image: Size,
    pub slice: Size,
}

// What a step may change: the image, which a server is lent, or the client's slice.
#[derive(Clone, Copy)]
pub enum Lent {
    Image,
    Slice,
}

// So many bytes from a place of `lent` on.
#[derive(Clone, Copy)]
pub struct Part {
    pub at: usize,
    pub size: Size,
    pub ghost inside: { at + size.bytes ≤ 524288 },
}

// A step, with a room of so many bytes. The input ends so far behind the payload's start, and begins 4 bytes behind it.
#[derive(Clone, Copy)]
pub struct Step {
    pub room: Size,
    pub end: Size,
    pub ghost begins: { 4 ≤ end.bytes },
}

impl Size {
    // None where it is too many.
    pub fn new(bytes: usize) -> Option<Size>
        ensures { MatchOption result (262144 < bytes) (λ n. n.bytes ≡ bytes) }
    {
        if bytes <= LONGEST {
            Some(Size { bytes })
        } else {
            None
        }
    }
}

impl Sizes {
    // Of nothing.
    pub fn new() -> Sizes
        ensures { result.table.bytes ≡ 0 × result.image.bytes ≡ 0 × result.slice.bytes ≡ 0 }
    {
        let none = Size { bytes: 0 };
        Sizes {
            table: none,
            image: none,
            slice: none,
        }
    }

    // Where what is lent stands.
    pub fn part(self, lent: Lent) -> Part
        ensures at { result.at ≡ of_lent 0 262144 lent }
        ensures size { result.size ≡ of_lent self.image self.slice lent }
    {
        match lent {
            Lent::Image => Part {
                at: 0,
                size: self.image,
            },
            Lent::Slice => Part {
                at: SECOND,
                size: self.slice,
            },
        }
    }
}
