ghost use Rattle.std.specs.Prelude.{◌≡◌, true, ◌++◌, length, drop, is_ok, is_err, IfOk};
ghost use Rattle.std.specs.Result.{result_err};
ghost use Rattle.rules.specs.Limits.{row_capacity};
ghost use Rattle.rules.specs.Pieces.{all_bytes, total};
ghost use Rattle.sink.specs.Answers.{write_answer};
ghost use Rattle.sink.specs.Pieces.{chunks};
ghost use Rattle.sink.specs.Rows.{shown_row};
ghost use Rattle.sink.specs.RowState.{row_value};

use sink::page::Page;
use sink::piece::Piece;
use sink::refusal::Unwritten;
use sink::row::Row;
use sink::run::write_all;

/// Writes the pieces into the buffer, by a generic function on a page. The buffer then holds their bytes joined, and behind
/// them what it held.
pub fn print(buffer: &mut [u8], pieces: &[Piece<'_>]) -> Result<(), Unwritten>
    ensures answer { result ≡ write_answer (total (chunks pieces.now)) (length buffer.old) }
    ensures written { is_ok result ≡ true → buffer.new ≡ all_bytes (chunks pieces.now) ++ drop (total (chunks pieces.now)) buffer.old }
    ensures refused { is_err result ≡ true → buffer.new ≡ buffer.old }
{
    let mut page = Page::new(buffer);
    write_all(&mut page, pieces)
}

/// Row `n` of the pieces, by the same function on a row.
pub fn row_of(n: u32, pieces: &[Piece<'_>]) -> Result<Row, Unwritten>
    ensures answer { result_err result ≡ result_err (write_answer (total (chunks pieces.now)) row_capacity) }
    ensures shown { IfOk result (λ row. (row_value row).bytes ≡ shown_row n (all_bytes (chunks pieces.now))) }
{
    let mut row = Row::new(n);
    write_all(&mut row, pieces)?;
    Ok(row)
}
