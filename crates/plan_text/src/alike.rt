//! The rows of a plan, by the numbers of their programs, and which of them are copies.
ghost use Rattle.std.specs.Prelude.{◌≡◌, ℕ, suc, true, false, get_or, map, [], IfOk};
ghost use Rattle.lock_plan.specs.Copies.{AreAlike};

use lock_plan::ProgramPlace;
use std::alloc::{AllocError, Global};

/// The program of each row, and whether the row is a copy of the row before it.
pub(crate) type Rows = (Vec<Vec<ProgramPlace>>, Vec<bool>);

/// Makes the rows with these numbers of programs. Two rows with one number, of which both are servers or neither is, are copies.
pub(crate) fn alike_rows(
    alloc: Global,
    programs: &[Vec<ProgramPlace>],
    numbers: &[usize],
    servers: &[bool],
) -> Result<Rows, AllocError>
    ensures { IfOk result (λ rows. AreAlike (map (λ v. v.items) rows.0.items) servers.now rows.1.items) }
{
    let rows = rows_of(alloc, programs, numbers)?;
    let copies = copies_of(alloc, numbers, servers)?;
    Ok((rows, copies))
}

/// Makes the program of each row.
pub(crate) fn rows_of(
    alloc: Global,
    programs: &[Vec<ProgramPlace>],
    numbers: &[usize],
) -> Result<Vec<Vec<ProgramPlace>>, AllocError>
    ensures { IfOk result (λ rows. map (λ v. v.items) rows.items
        ≡ map (λ number. get_or (map (λ v. v.items) programs.now) number []) numbers.now) }
{
    let mut rows = Vec::new(alloc);
    for number in numbers {
        rows.push(program_of(alloc, programs, *number)?)?;
    }
    Ok(rows)
}

/// Makes the program with this number.
fn program_of(
    alloc: Global,
    programs: &[Vec<ProgramPlace>],
    number: usize,
) -> Result<Vec<ProgramPlace>, AllocError>
    ensures { IfOk result (λ program. program.items ≡ get_or (map (λ v. v.items) programs.now) number []) }
{
    match programs.get(number) {
        Some(program) => Vec::from_slice(alloc, program.as_slice()),
        None => Ok(Vec::new(alloc)),
    }
}

/// Returns for each row whether it is a copy of the row before it.
fn copies_of(alloc: Global, numbers: &[usize], servers: &[bool]) -> Result<Vec<bool>, AllocError>
    ensures { IfOk result (λ copies. (row : ℕ) → get_or copies.items (suc row) false ≡ true
        → (get_or numbers.now (suc row) 0 ≡ get_or numbers.now row 0)
        × (get_or servers.now (suc row) false ≡ get_or servers.now row false)) }
{
    let mut copies = Vec::new(alloc);
    for row in 0..numbers.len() {
        copies.push(is_copy(numbers, servers, row))?;
    }
    Ok(copies)
}

/// Returns whether a row is a copy of the row before it.
pub(crate) fn is_copy(numbers: &[usize], servers: &[bool], row: usize) -> bool
    ensures { (before : ℕ) → suc before ≡ row → result ≡ true
        → (get_or numbers.now (suc before) 0 ≡ get_or numbers.now before 0)
        × (get_or servers.now (suc before) false ≡ get_or servers.now before false) }
{
    let Some(before) = row.checked_sub(1) else {
        return false;
    };
    number_at(numbers, row) == number_at(numbers, before)
        && is_server(servers, row) == is_server(servers, before)
}

/// Returns the number of a row's program.
fn number_at(numbers: &[usize], row: usize) -> usize
    ensures { result ≡ get_or numbers.now row 0 }
{
    numbers.get(row).copied().unwrap_or(0)
}

/// Returns whether a row is a server.
fn is_server(servers: &[bool], row: usize) -> bool
    ensures { result ≡ get_or servers.now row false }
{
    servers.get(row).copied().unwrap_or(false)
}
