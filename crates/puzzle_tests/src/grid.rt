use hall_grid::{
    Counted, Puzzle, Size, dot_ends, labels_differ, law_texts, neighbours, parse_answer,
    parse_puzzle, reach, regions, sides, write_answer,
};
use std::alloc::AllocGlobal;
use std::io;
use std::io::{Read, Write};
use std::process::Abort;

/// Puzzles, and answer texts that say a filling of them, or none.
const ANSWERS: &str = "\
sudoku/4/4/ 1234341221434321 filling
sudoku/16/16/ 123456789abcdefg56789abcdefg12349abcdefg12345678defg123456789abc\
23456789abcdefg16789abcdefg12345abcdefg123456789efg123456789abcd\
3456789abcdefg12789abcdefg123456bcdefg123456789afg123456789abcde\
456789abcdefg12389abcdefg1234567cdefg123456789abg123456789abcdef filling
slither/2/2/ 110011/101101 filling
slither/1/1/ 00/11 filling
nurikabe/3/2/ .##..# filling
sudoku/4/4/ 123434122143432 none
sudoku/4/4/ 12343412214343211 none
sudoku/4/4/ 1234341221434325 none
sudoku/4/4/ 0234341221434321 none
sudoku/9/9/  none
slither/2/2/ 110011101101 none
slither/2/2/ 110011/10110 none
slither/2/2/ 110011/1011011 none
slither/2/2/ 110021/101101 none
nurikabe/3/2/ .##..x none
nurikabe/3/2/ .##.. none";

/// Whether the text says a filling of the puzzle, and is that filling's text.
fn is_rewritten(rt: &(impl AllocGlobal + Abort), puzzle: &Puzzle, text: &str) -> bool {
    let Some(filling) = parse_answer(rt.alloc(), puzzle, text.as_bytes()).expect(rt, "memory")
    else {
        return false;
    };
    let written = write_answer(rt.alloc(), puzzle, &filling).expect(rt, "memory");
    assert!(rt; written.as_str() == text, "{text}");
    true
}

/// Sees that the answer text of the row says a filling, or none; the puzzle is a copy.
fn see_answer(rt: &(impl AllocGlobal + Abort), row: &str) {
    let mut words = row.split(' ');
    let puzzle = words.next().expect(rt, "puzzle");
    let text = words.next().expect(rt, "text");
    let is_filling = words.next() == Some("filling");
    let puzzle = parse_puzzle(rt.alloc(), puzzle.as_bytes()).expect(rt, "puzzle");
    let copy = puzzle.clone().expect(rt, "memory");
    assert!(rt; copy.is_same(&puzzle), "{row}");
    assert!(rt; is_rewritten(rt, &copy, text) == is_filling, "{row}");
}

#[test]
fn rewrites_answers(rt: HostRuntime) {
    for row in ANSWERS.lines() {
        see_answer(&rt, row);
    }
}

const SIZE: Size = Size { cols: 3, rows: 2 };

/// Cells of two rows of three, those beside them, and their sides.
const CELLS: [(usize, [Option<usize>; 4], [usize; 4]); 4] = [
    (0, [None, None, Some(1), Some(3)], [0, 9, 10, 3]),
    (1, [None, Some(0), Some(2), Some(4)], [1, 10, 11, 4]),
    (2, [None, Some(1), None, Some(5)], [2, 11, 12, 5]),
    (4, [Some(1), Some(3), Some(5), None], [4, 14, 15, 7]),
];

fn are_numbered(cell: usize, beside: [Option<usize>; 4], around: [usize; 4]) -> bool {
    cell < 6 && neighbours(SIZE, cell) == beside && sides(SIZE, cell) == around
}

/// Sides, and the dots at their ends.
const ENDS: [(usize, (usize, usize)); 4] = [(0, (0, 1)), (8, (10, 11)), (9, (0, 4)), (16, (7, 11))];

#[test]
fn numbers_cells_sides_and_dots(rt: HostRuntime) {
    for (cell, beside, around) in &CELLS {
        assert!(rt; are_numbered(*cell, *beside, *around), "{cell}");
    }
    for (side, ends) in &ENDS {
        assert!(rt; *side < 17 && dot_ends(SIZE, *side) == *ends, "{side}");
    }
    assert!(rt; SIZE.cells() == 6 && SIZE.flat_sides() == 9 && SIZE.all_sides() == 17);
}

#[test]
fn joins_by_sides_alone(rt: HostRuntime) {
    // Cells 0 and 4 meet at a corner, and so do 4 and 2.
    let allowed = [true, false, true, false, true, true];
    let marks = reach(rt.alloc(), SIZE, 4, &allowed).expect(&rt, "memory");
    assert!(rt; marks.as_slice() == [false, false, true, false, true, true].as_slice());
    let labels = regions(rt.alloc(), SIZE, &allowed).expect(&rt, "memory");
    assert!(rt; labels.as_slice() == [Some(0), None, Some(2), None, Some(2), Some(2)].as_slice());
    assert!(rt; labels_differ(&labels));
    law_texts();
}

/// Gives a byte and then fails; takes a byte, and then none.
#[derive(Drop)]
struct Faulty {
    left: u8,
}

impl Read for Faulty {
    fn read(&mut self, buf: &mut [u8]) -> io::Result<usize> {
        if self.left == 0 {
            return Err(io::Error::from(io::ErrorKind::Other));
        }
        self.left -= 1;
        match buf.first_mut() {
            Some(first) => {
                *first = b'x';
                Ok(1)
            }
            None => Ok(0),
        }
    }
}

impl Write for Faulty {
    fn write(&mut self, buf: &[u8]) -> io::Result<usize> {
        if self.left == 0 || buf.is_empty() {
            return Ok(0);
        }
        self.left -= 1;
        Ok(1)
    }

    fn flush(&mut self) -> io::Result<()> {
        Ok(())
    }
}

#[test]
fn counts_calls_and_failures(rt: HostRuntime) {
    let mut reader = Counted::new(Faulty { left: 1 });
    let mut byte = [b'.'];
    let is_read = matches!(reader.read(&mut byte), Ok(1));
    assert!(rt; is_read && byte[0] == b'x' && reader.failures() == 0);
    let is_refused = reader.read(&mut byte).is_err();
    assert!(rt; is_refused && reader.failures() == 1 && reader.calls() == 2);
    let mut writer = Counted::new(Faulty { left: 1 });
    let is_taken = matches!(writer.write(b"ab"), Ok(1)) && writer.flush().is_ok();
    assert!(rt; is_taken && writer.failures() == 0);
    let is_full = matches!(writer.write(b"b"), Ok(0));
    assert!(rt; is_full && writer.failures() == 1 && writer.calls() == 2);
    assert!(rt; writer.into_inner().left == 0);
}
