//! The call that lists.

ghost use Rattle.std.specs.Prelude.{◌≡◌, ◌≤◌, take, Ok, Err, vec_len, vec_capacity, MatchResult};
ghost use Rattle.grid.specs.Grids.{alignment_of};
ghost use Rattle.text.specs.Written.{sheet_text, fault_line};
ghost use Rattle.engine.specs.Listing.{most_bytes, sheet_in, shown};
ghost use Rattle.engine.specs.Appending.{Appended, Lengthened, ListingAppended};

use crate::listing::{MOST_BYTES, Unlisted};
use grid::grid::Grid;
use loader::load::{load, open};
use sheet::refusal::Refusal;
use sheet::sheet::Sheet;
use std::alloc::AllocError;
use text::fault::{Fault, RecordFault};
use writer::lines::{fault_len, write_fault};
use writer::whole::{sheet_len, write_sheet};

/// The sheet of a text on a grid. A sheet without links is refused at its end.
#[tactic(auto, using(alignment::proofs::Counts::links_none), unfolding(crate::specs::Listing::sheet_in))]
fn read_grid(text: &[u8], block: Vec<u8>) -> Result<Grid, Fault>
    requires { 32768 ≤ vec_len block }
    ensures { MatchResult result (λ g. sheet_in text.now ≡ Ok (alignment_of g)) (λ f. sheet_in text.now ≡ Err f) }
{
    let (lengths, rest) = open(text)?;
    let mut grid = Grid::lay(lengths, block);
    if load(&mut grid, rest)? == 0 {
        // No line made a link, so the end is line 2.
        return Err((2, RecordFault::from(Refusal::NoLinks)).into());
    }
    Ok(grid)
}

/// Makes a buffer `more` bytes longer, and answers where they begin.
fn lengthen(out: &mut Vec<u8>, more: usize) -> Result<usize, AllocError>
    ensures { Lengthened out.old.items (vec_capacity out.old) more result out.new.items }
{
    let at = out.len();
    let end = at.checked_add(more).ok_or(AllocError)?;
    out.resize(end, 0)?;
    Ok(at)
}

/// Appends the text of a sheet in its normal form.
fn append_sheet<S: Sheet>(out: &mut Vec<u8>, sheet: &S) -> Result<(), AllocError>
    ensures { Appended out.old.items (vec_capacity out.old) (sheet_text (S.meaning sheet.now)) result out.new.items }
{
    let at = lengthen(out, sheet_len(sheet))?;
    // The buffer is as long as the text needs, so nothing is refused.
    write_sheet(out, at, sheet).unwrap();
    Ok(())
}

/// Appends the line that tells of a fault.
fn append_fault(out: &mut Vec<u8>, fault: Fault) -> Result<(), AllocError>
    ensures { Appended out.old.items (vec_capacity out.old) (fault_line fault) result out.new.items }
{
    let at = lengthen(out, fault_len(fault))?;
    // The buffer is as long as the line needs, so nothing is refused.
    write_fault(out, at, fault).unwrap();
    Ok(())
}

/// The bytes of a text that are read.
#[tactic(auto, using(std::proofs::lemmas::List::take_min))]
fn first_bytes(text: &[u8]) -> &[u8]
    ensures { result.now ≡ take most_bytes text.now }
{
    &text[..MOST_BYTES.min(text.len())]
}

/// Appends the listing of a text that is read to its end.
fn list_all(text: &[u8], block: Vec<u8>, out: &mut Vec<u8>) -> Result<(), AllocError>
    requires { 32768 ≤ vec_len block }
    ensures { Appended out.old.items (vec_capacity out.old) (shown (sheet_in text.now)) result out.new.items }
{
    match read_grid(text, block) {
        Ok(grid) => append_sheet(out, &grid),
        Err(fault) => append_fault(out, fault),
    }
}

/// Appends what the lister prints of a text: its sheet in the normal form, or the line of its first fault.
///
/// Bytes past the first 65,536, and bytes after the end of the sheet, are not read. The block is for the grid that the text is loaded
/// onto: one that is too short is refused. Memory can run out only where the listing does not fit into what `out` has reserved. Either
/// way `out` is then as it was.
pub fn list(text: &[u8], block: Vec<u8>, out: &mut Vec<u8>) -> Result<(), Unlisted>
    ensures { ListingAppended text.now block.items out.old.items (vec_capacity out.old) result out.new.items }
{
    Grid::test(&block)?;
    list_all(first_bytes(text), block, out)?;
    Ok(())
}
