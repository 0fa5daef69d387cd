// The picture: a large verdict, then a grid for each kind of update with a column for each leftover. A cell is a cut, coloured by what load
// gave; its words, which a browser shows under the pointer, say which operation it is.
use crate::kinds::{Kind, LEFTOVERS, Leftovers, Updates};
use crate::lines::{put_counts, put_total};
use crate::torn::{Cuts, Target, are_tried};
use crate::trial::{Count, Plan};
use crate::{kinds, strips};
use leaf::bytes::get8;
use program::output::{Grouped, put};
use region::SECTOR_SIZE_32;
use std::io;
use std::io::Write;
use std::num::{wrapping_add_u32, wrapping_sub_u32};
use writer::TAIL_SIZE_32;

// All lengths are in pixels. The size of a cell, and what is left between two of them.
const CELL_WIDTH: u32 = 8;

const CELL_HEIGHT: u32 = 10;

// A row of a grid is a sector of the data: its erase and its writes. The header's sector has a row before them, header and commit word one after.
const WRITES: u32 = SECTOR_SIZE_32 / TAIL_SIZE_32;

const ROW_CELLS: u32 = WRITES + 1;

const HEADER_ROWS: u32 = 1;

// The cut before the first operation, and the one after the erase of the header's sector.
const FIRST_CUTS: u32 = 2;
// The operations after the data: header and commit word.
const LAST_OPERATIONS: u32 = 2;

// The columns, from left to right, and where the first starts.
const COLUMN_WIDTH: u32 = 152;

const LEFT: u32 = 170;

const LABEL_X: u32 = 162;

const MARGIN: u32 = 20;

// No grid has more rows, and no length overflows.
const ROWS_LIMIT: u32 = 200;

const COLUMNS_LIMIT: u32 = 10;

const LENGTH_LIMIT: u32 = 10000;

// The heights of a grid's title and of its columns' heads, of the gap below its rows and below it.
const TITLE_HEIGHT: u32 = 24;

const HEAD_HEIGHT: u32 = 18;

const GAP: u32 = 8;

const BELOW: u32 = 24;

// A text is on a line this much below the top of its row.
const TITLE_TEXT: u32 = 16;

const HEAD_TEXT: u32 = 12;

const CELL_TEXT: u32 = 8;

// Where verdict, total, explanations and legend are.
const VERDICT_Y: u32 = 44;

const TOTAL_Y: u32 = 68;

const CELLS_Y: u32 = 92;

const ROWS_Y: u32 = 107;

const LEFTOVERS_Y: u32 = 122;

const MORE_LEFTOVERS_Y: u32 = 137;

const INSIDE_Y: u32 = 152;

const LEGEND_Y: u32 = 164;

const LEGEND_TEXT_Y: u32 = 173;

const LEGEND_TEXT: u32 = 14;

const NEW_X: u32 = 210;

const AGAIN_X: u32 = 370;

const WRONG_X: u32 = 650;

const X_LIMIT: u32 = 10000;

// Where the first grid starts.
const TOP: u32 = 200;

// A cell of a grid: its row and its place in it.
#[derive(Clone, Copy)]
struct Cell {
    row: u32,
    place: u32,
}

// How many rows n cells fill.
fn rows_of(n: u32) -> u32 {
    wrapping_add_u32(wrapping_sub_u32(n, 1) / ROW_CELLS, 1) % ROWS_LIMIT
}

// How many rows the data of a kind of update have.
fn data_rows(k: Kind) -> u32 {
    let others = LAST_OPERATIONS + HEADER_ROWS;
    rows_of(wrapping_sub_u32(kinds::operations(k), others))
}

// The row of header and commit word.
fn last_row(k: Kind) -> u32 {
    data_rows(k) % ROWS_LIMIT + HEADER_ROWS
}

// The height of the rows of the cuts between operations.
fn rows_height(k: Kind) -> u32 {
    (last_row(k) % ROWS_LIMIT + 1) * CELL_HEIGHT
}

// The height of the cells inside an operation, with the gap before them.
fn strip_height(t: Target) -> u32 {
    rows_of(strips::cells(t)) % ROWS_LIMIT * CELL_HEIGHT + GAP
}

fn strips_height(c: Cuts) -> u32 {
    if !are_tried(c) {
        return 0;
    }
    let erase = strip_height(Target::HeaderErase);
    let write = strip_height(Target::HeaderWrite);
    let word = strip_height(Target::CommitWord);
    wrapping_add_u32(wrapping_add_u32(erase, write), word)
}

// The height of a kind's grid; 0 if it isn't asked for.
fn grid_height(choice: Updates, k: Kind, c: Cuts) -> u32 {
    if !choice.has(k) {
        return 0;
    }
    let cells = wrapping_add_u32(rows_height(k), strips_height(c)) % LENGTH_LIMIT;
    TITLE_HEIGHT + HEAD_HEIGHT + cells + BELOW
}

// The end of a kind's grid that starts at y.
fn below(choice: Updates, k: Kind, c: Cuts, y: u32) -> u32 {
    wrapping_add_u32(y, grid_height(choice, k, c))
}

// Where the grid of a kind starts.
fn grid_y(choice: Updates, k: Kind, c: Cuts) -> u32 {
    let above = below(choice, Kind::Below, c, TOP);
    let full = below(choice, Kind::Above, c, above);
    match k {
        Kind::Below => TOP,
        Kind::Above => above,
        Kind::Full => full,
        Kind::Compared => below(choice, Kind::Full, c, full),
    }
}

fn height(updates: Updates, c: Cuts) -> u32 {
    below(
        updates,
        Kind::Compared,
        c,
        grid_y(updates, Kind::Compared, c),
    )
}

fn style<W: Write>(out: &mut W) -> io::Result<()> {
    put(
        out,
        b"<style>\
          text{font:11px sans-serif;fill:#222}\
          .v{font-size:30px;font-weight:bold}\
          .right{fill:#1a7f43}\
          .wrong{fill:#c62f2f}\
          .t{font-size:15px;font-weight:bold}\
          .n{font-size:9px;fill:#666;text-anchor:end}\
          .m0{fill:#9ecae1}\
          .m4{fill:#3182bd}\
          .m1{fill:#74c476}\
          .m5{fill:#238b45}\
          .m2,.m6{fill:#d7301f}\
          .m3{fill:#e3e3e3}\
          rect{stroke:#fff}\
          rect:hover{stroke:#000}\
          </style>\n",
    )
}

fn text<W: Write>(out: &mut W, x: u32, y: u32) -> io::Result<()> {
    write!(out, "<text x=\"{x}\" y=\"{y}\">")
}

fn line<W: Write>(out: &mut W, y: u32, words: &[u8]) -> io::Result<()> {
    text(out, MARGIN, y)?;
    put(out, words)?;
    put(out, b"</text>\n")
}

// A text at the right end of the labels.
fn label_start<W: Write>(out: &mut W, y: u32) -> io::Result<()> {
    let text_y = wrapping_add_u32(y, CELL_TEXT);
    write!(out, "<text class=\"n\" x=\"{LABEL_X}\" y=\"{text_y}\">")
}

fn label<W: Write>(out: &mut W, y: u32, words: &[u8]) -> io::Result<()> {
    label_start(out, y)?;
    put(out, words)?;
    put(out, b"</text>\n")
}

fn explain<W: Write>(out: &mut W, c: Cuts) -> io::Result<()> {
    line(
        out,
        CELLS_Y,
        b"A cell is a cut after a flash operation; the first one is before any. Point at a cell to read which operation it is.",
    )?;
    line(
        out,
        ROWS_Y,
        b"A row is a sector: its erase, then its 16 writes. The header's sector is erased first; header and commit word are written last.",
    )?;
    line(
        out,
        LEFTOVERS_Y,
        b"A column is what the written bank held before: found (as in the image), erased, older (good, one generation older),",
    )?;
    line(
        out,
        MORE_LEFTOVERS_Y,
        b"half (another update cut half-way), headed (another update, only its commit word missing), random (random bytes).",
    )?;
    if are_tried(c) {
        line(
            out,
            INSIDE_Y,
            b"Below the rows are the cuts inside three operations: a cell is 32 bytes, in the commit word one byte.",
        )?;
    }
    Ok(())
}

fn rect_start<W: Write>(out: &mut W, mark: u8, x: u32, y: u32) -> io::Result<()> {
    write!(
        out,
        "<rect class=\"m{mark}\" x=\"{x}\" y=\"{y}\" width=\"{CELL_WIDTH}\" height=\"{CELL_HEIGHT}\">"
    )
}

fn legend_entry<W: Write>(out: &mut W, mark: u8, x: u32, words: &[u8]) -> io::Result<()> {
    rect_start(out, mark, x, LEGEND_Y)?;
    put(out, b"</rect>")?;
    text(out, x % X_LIMIT + LEGEND_TEXT, LEGEND_TEXT_Y)?;
    put(out, words)?;
    put(out, b"</text>\n")
}

fn legend<W: Write>(out: &mut W) -> io::Result<()> {
    legend_entry(out, strips::OLD, MARGIN, b"load gave what it gave before")?;
    legend_entry(out, strips::NEW, NEW_X, b"load gave the new bank")?;
    legend_entry(
        out,
        strips::BEGUN_AGAIN,
        AGAIN_X,
        b"darker: begun again from there, and committed",
    )?;
    legend_entry(
        out,
        strips::WRONG,
        WRONG_X,
        b"wrong: load gave something else, or an update begun again failed",
    )
}

// The labels of the data's rows.
fn sector_labels<W: Write>(out: &mut W, n: u32, top: u32) -> io::Result<()> {
    let mut y = top;
    for k in 1..=n {
        label_start(out, y)?;
        writeln!(out, "sector {k}</text>")?;
        y = wrapping_add_u32(y, CELL_HEIGHT);
    }
    Ok(())
}

fn strip_labels<W: Write>(out: &mut W, c: Cuts, top: u32) -> io::Result<()> {
    if !are_tried(c) {
        return Ok(());
    }
    let erase = wrapping_add_u32(top, GAP);
    let write = wrapping_add_u32(erase, strip_height(Target::HeaderErase));
    let word = wrapping_add_u32(write, strip_height(Target::HeaderWrite));
    label(out, erase, b"inside the header's erase")?;
    label(out, write, b"inside the header's write")?;
    label(out, word, b"inside the commit word")
}

fn title<W: Write>(out: &mut W, k: Kind, y: u32) -> io::Result<()> {
    write!(out, "<text class=\"t\" x=\"{MARGIN}\" y=\"{y}\">")?;
    writeln!(out, "{k}</text>")
}

// A kind's grid without its cells: title and labels.
fn frame<W: Write>(out: &mut W, updates: Updates, k: Kind, c: Cuts) -> io::Result<()> {
    if !updates.has(k) {
        return Ok(());
    }
    let y = grid_y(updates, k, c);
    title(out, k, wrapping_add_u32(y, TITLE_TEXT))?;
    let top = wrapping_add_u32(y, TITLE_HEIGHT + HEAD_HEIGHT);
    let rows = wrapping_add_u32(top, CELL_HEIGHT);
    let last = wrapping_add_u32(top, last_row(k) % ROWS_LIMIT * CELL_HEIGHT);
    label(out, top, b"before, header's erase")?;
    sector_labels(out, data_rows(k), rows)?;
    label(out, last, b"header, commit word")?;
    strip_labels(out, c, wrapping_add_u32(last, CELL_HEIGHT))
}

// Writes the picture's beginning: everything but the cells, the verdict and the total.
pub fn start<W: Write>(out: &mut W, updates: Updates, c: Cuts) -> io::Result<()> {
    let h = height(updates, c);
    writeln!(
        out,
        "<svg xmlns=\"http://www.w3.org/2000/svg\" width=\"1100\" height=\"{h}\" viewBox=\"0 0 1100 {h}\">\n<title>powercut</title>"
    )?;
    style(out)?;
    writeln!(out, "<path fill=\"#fff\" d=\"M0 0H1100V{h}H0z\"/>")?;
    explain(out, c)?;
    legend(out)?;
    frame(out, updates, Kind::Below, c)?;
    frame(out, updates, Kind::Above, c)?;
    frame(out, updates, Kind::Full, c)?;
    frame(out, updates, Kind::Compared, c)
}

// Writes a name: XML's own signs are escaped, and what isn't printable ASCII becomes a question mark.
fn put_name<W: Write>(out: &mut W, name: &[u8]) -> io::Result<()> {
    for b in name {
        match *b {
            b'&' => put(out, b"&amp;")?,
            b'<' => put(out, b"&lt;")?,
            b'>' => put(out, b"&gt;")?,
            b' '..=b'~' => put(out, &[*b])?,
            _ => put(out, b"?")?,
        }
    }
    Ok(())
}

fn verdict<W: Write>(out: &mut W, wrong: u32) -> io::Result<()> {
    if wrong == 0 {
        return writeln!(
            out,
            "<text class=\"v right\" x=\"{MARGIN}\" y=\"{VERDICT_Y}\">No cut was wrong</text>"
        );
    }
    writeln!(
        out,
        "<text class=\"v wrong\" x=\"{MARGIN}\" y=\"{VERDICT_Y}\">WRONG: {}</text>",
        Grouped(wrong)
    )
}

// Writes the picture's end: the verdict and the line for all updates, which are at its top.
pub fn end<W: Write>(out: &mut W, name: &[u8], updates: u32, all: Count) -> io::Result<()> {
    verdict(out, all.wrong)?;
    text(out, MARGIN, TOTAL_Y)?;
    put_name(out, name)?;
    put(out, b": ")?;
    put_total(out, updates, all)?;
    put(out, b"</text>\n</svg>\n")
}

// The cell of the cut after k of n operations. The data's come after the erase of the header's sector.
fn cell_of(k: u32, n: u32, last: u32) -> Cell {
    if k < FIRST_CUTS {
        return Cell { row: 0, place: k };
    }
    let header = wrapping_sub_u32(n, 1);
    if k < header {
        let d = k - FIRST_CUTS;
        return Cell {
            row: d / ROW_CELLS % ROWS_LIMIT + HEADER_ROWS,
            place: d % ROW_CELLS,
        };
    }
    Cell {
        row: last,
        place: wrapping_sub_u32(k, header) % ROW_CELLS,
    }
}

// What load gave at a cut.
fn put_mark<W: Write>(out: &mut W, mark: u8) -> io::Result<()> {
    put(
        out,
        match mark % strips::BEGUN_AGAIN {
            strips::OLD => b": load gave what it gave before",
            strips::NEW => b": load gave the new bank",
            strips::WRONG => b": WRONG",
            _ => b": not tried",
        },
    )?;
    if strips::BEGUN_AGAIN <= mark {
        put(out, b"; begun again")?;
    }
    put(out, b"</title></rect>\n")
}

// Which operation of the data a cell is.
fn put_data_operation<W: Write>(out: &mut W, c: Cell) -> io::Result<()> {
    if c.place == 0 {
        return write!(out, "erase of sector {}", c.row);
    }
    write!(out, "write {} of {WRITES} in sector {}", c.place, c.row)
}

// Whether the k-th of n operations is one of the data's.
fn is_data(k: u32, n: u32) -> bool {
    (1 < k) & (k < wrapping_sub_u32(n, 1))
}

// Of the operations that aren't: the header's erase, its write, the commit word's.
fn header_operation(k: u32, n: u32) -> &'static [u8] {
    if k == 1 {
        return b"erase of the header's sector";
    }
    if k == n {
        b"write of the commit word"
    } else {
        b"write of the header"
    }
}

// Which operation the k-th of n is.
fn put_operation<W: Write>(out: &mut W, k: u32, n: u32, c: Cell) -> io::Result<()> {
    if k == 0 {
        return put(out, b"before the first operation");
    }
    write!(out, "after operation {} of {}, ", Grouped(k), Grouped(n))?;
    if is_data(k, n) {
        put_data_operation(out, c)
    } else {
        put(out, header_operation(k, n))
    }
}

// Where a column's cells of a row and a place are.
fn cell_start<W: Write>(out: &mut W, mark: u8, x: u32, top: u32, c: Cell) -> io::Result<()> {
    rect_start(
        out,
        mark,
        wrapping_add_u32(x, c.place % ROW_CELLS * CELL_WIDTH),
        wrapping_add_u32(top, c.row % ROWS_LIMIT * CELL_HEIGHT),
    )?;
    put(out, b"<title>")
}

// Draws the cut after k of n operations.
fn cut_cell<W: Write>(
    out: &mut W,
    marks: &[u8],
    k: u32,
    n: u32,
    last: u32,
    x: u32,
    top: u32,
) -> io::Result<()> {
    let mark = get8(marks, k as usize);
    let c = cell_of(k, n, last);
    cell_start(out, mark, x, top, c)?;
    put_operation(out, k, n, c)?;
    put_mark(out, mark)
}

fn cut_cells<W: Write>(
    out: &mut W,
    marks: &[u8],
    cuts: u32,
    n: u32,
    last: u32,
    x: u32,
    top: u32,
) -> io::Result<()> {
    for k in 0..cuts {
        cut_cell(out, marks, k, n, last, x, top)?;
    }
    Ok(())
}

fn put_target<W: Write>(out: &mut W, t: Target) -> io::Result<()> {
    put(
        out,
        match t {
            Target::HeaderErase => b"inside the erase of the header's sector, ",
            Target::HeaderWrite => b"inside the write of the header, ",
            _ => b"inside the write of the commit word, ",
        },
    )
}

// Draws cell k of the cuts inside an operation.
fn strip_cell<W: Write>(
    out: &mut W,
    marks: &[u8],
    t: Target,
    k: u32,
    x: u32,
    top: u32,
) -> io::Result<()> {
    let mark = get8(marks, wrapping_add_u32(strips::start(t), k) as usize);
    let c = Cell {
        row: k / ROW_CELLS,
        place: k % ROW_CELLS,
    };
    cell_start(out, mark, x, top, c)?;
    put_target(out, t)?;
    let first = strips::first_byte(t, k);
    let last = strips::last_byte(t, k);
    write!(out, "bytes {} to {}", Grouped(first), Grouped(last))?;
    put_mark(out, mark)
}

fn strip<W: Write>(out: &mut W, marks: &[u8], t: Target, x: u32, top: u32) -> io::Result<()> {
    for k in 0..strips::cells(t) {
        strip_cell(out, marks, t, k, x, top)?;
    }
    Ok(())
}

fn three_strips<W: Write>(out: &mut W, marks: &[u8], c: Cuts, x: u32, top: u32) -> io::Result<()> {
    if !are_tried(c) {
        return Ok(());
    }
    let erase = wrapping_add_u32(top, GAP);
    let write = wrapping_add_u32(erase, strip_height(Target::HeaderErase));
    let word = wrapping_add_u32(write, strip_height(Target::HeaderWrite));
    strip(out, marks, Target::HeaderErase, x, erase)?;
    strip(out, marks, Target::HeaderWrite, x, write)?;
    strip(out, marks, Target::CommitWord, x, word)
}

// Where the column of a leftover starts.
fn column_x(choice: Leftovers, p: Plan) -> u32 {
    if choice.0.is_some() {
        return LEFT;
    }
    let l = p.setting.leftover;
    let column = LEFTOVERS.iter().position(|x| *x == l).unwrap_or(0);
    LEFT + column as u32 % COLUMNS_LIMIT * COLUMN_WIDTH
}

fn head_verdict<W: Write>(out: &mut W, c: Count) -> io::Result<()> {
    if c.wrong == 0 {
        put(out, b": right<title>")
    } else {
        write!(out, ": WRONG {}<title>", Grouped(c.wrong))
    }
}

// A column's head: the leftover and the verdict; the update's line is its words.
fn head<W: Write>(out: &mut W, p: Plan, c: Count, x: u32, y: u32) -> io::Result<()> {
    let leftover = p.setting.leftover;
    let class = if c.wrong == 0 { "right" } else { "wrong" };
    let text_y = wrapping_add_u32(y, HEAD_TEXT);
    write!(
        out,
        "<text class=\"{class}\" x=\"{x}\" y=\"{text_y}\">{leftover}"
    )?;
    head_verdict(out, c)?;
    put_counts(out, p, c)?;
    put(out, b"</title></text>\n")
}

// Draws an update's column in the grid of its kind.
pub fn draw<W: Write>(
    out: &mut W,
    marks: &[u8],
    p: Plan,
    c: Count,
    leftovers: Leftovers,
    updates: Updates,
) -> io::Result<()> {
    let s = p.setting;
    let k = s.update;
    let cuts = s.cuts;
    let x = column_x(leftovers, p);
    let y = wrapping_add_u32(grid_y(updates, k, cuts), TITLE_HEIGHT);
    let top = wrapping_add_u32(y, HEAD_HEIGHT);
    let last = last_row(k);
    head(out, p, c, x, y)?;
    cut_cells(out, marks, c.cuts, kinds::operations(k), last, x, top)?;
    three_strips(out, marks, cuts, x, wrapping_add_u32(top, rows_height(k)))
}
