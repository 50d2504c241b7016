//! All positions of a board, one for each number.

use hx_board::{Mask, Position, Size};

/// The rows and columns of small boards, and how many positions each has: three for each cell.
pub const SMALL_BOARDS: [(u8, u8, u32); 7] = [
    (1, 1, 3),
    (1, 2, 9),
    (2, 1, 9),
    (2, 2, 81),
    (1, 3, 27),
    (2, 3, 729),
    (3, 2, 729),
];

/// The position that a number to base three stands for, with a digit for each cell in cell order, the lowest first: 0
/// is empty, 1 black, 2 white.
pub fn numbered(size: Size, number: u32) -> Option<Position> {
    let mut black = Mask::empty();
    let mut white = Mask::empty();
    let mut rest = number;
    for row in 0..size.rows() {
        for col in 0..size.cols() {
            if let Some(cell) = size.cell(row, col) {
                match rest % 3 {
                    1 => black = black.with(cell),
                    2 => white = white.with(cell),
                    _ => {}
                }
            }
            rest /= 3;
        }
    }
    Position::from_masks(size, black, white)
}
