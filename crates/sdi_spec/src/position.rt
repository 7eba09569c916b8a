// What a line does not say of its packets (02, K6: "C, place, S and StreamNum come from the caller").

#[derive(Clone, Copy)]
pub struct Position {
    pub c: u16,
    // Line_Number and Horizontal_Offset, as the fields' numbers.
    pub line: u16,
    pub offset: u16,
    pub s: u16,
    pub stream: u16,
}
