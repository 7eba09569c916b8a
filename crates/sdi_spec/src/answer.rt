// What the writer and the reader of lines answer, and the passes over a line.

// The records that were listed: how many, the cells that they take, and the word behind the last packet.
#[derive(Clone, Copy)]
pub struct ReadLine {
    pub count: usize,
    pub cells: usize,
    pub end: usize,
}

// The packets that were found: how many, and the words that they take.
#[derive(Clone, Copy)]
pub struct Found {
    pub count: usize,
    pub words: usize,
}
