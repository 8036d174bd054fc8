// The weights of slots in a mask: entry s is 2 to the s. They are in sixteens, all of one width and a line for each slot, so that the table can be held against another by
// eye: 1, 2, 4, 8, and then the same again one place to the left. A table and no shift, as docs/SCOPE.md asks for it.
ghost use Rattle.questions.specs.Mask.{Weights};

const WEIGHTS: [u32; 32] = [
    0x0000_0001, // slot 0
    0x0000_0002, // slot 1
    0x0000_0004, // slot 2
    0x0000_0008, // slot 3
    0x0000_0010, // slot 4
    0x0000_0020, // slot 5
    0x0000_0040, // slot 6
    0x0000_0080, // slot 7
    0x0000_0100, // slot 8
    0x0000_0200, // slot 9
    0x0000_0400, // slot 10
    0x0000_0800, // slot 11
    0x0000_1000, // slot 12
    0x0000_2000, // slot 13
    0x0000_4000, // slot 14
    0x0000_8000, // slot 15
    0x0001_0000, // slot 16
    0x0002_0000, // slot 17
    0x0004_0000, // slot 18
    0x0008_0000, // slot 19
    0x0010_0000, // slot 20
    0x0020_0000, // slot 21
    0x0040_0000, // slot 22
    0x0080_0000, // slot 23
    0x0100_0000, // slot 24
    0x0200_0000, // slot 25
    0x0400_0000, // slot 26
    0x0800_0000, // slot 27
    0x1000_0000, // slot 28
    0x2000_0000, // slot 29
    0x4000_0000, // slot 30
    0x8000_0000, // slot 31
];

// The table by value.
pub fn slot_weights() -> [u32; 32]
    ensures { Weights result }
{
    WEIGHTS
}
