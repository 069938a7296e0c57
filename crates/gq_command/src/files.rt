// The files. Each is written into one growing buffer.
ghost use Rattle.std.specs.Prelude.{◌≡◌, ◌<◌, ◌≤◌, ◌++◌, IfOk, OnOk};
ghost use Rattle.std.specs.Fmt.{decimal};
ghost use Rattle.gq_command.specs.Sample.{edge_line, edge_lines, knows_file, last_field, people_file, person, person_line};

use gq_base::OutOfMemory;
use itoa::Buffer;
use std::alloc::Global;

/// Returns the file of `n` people: the header `id,age`, and a line for each.
///
/// Person i is `pi`, and is i mod 90 years old.
pub fn people_csv(alloc: Global, n: u32) -> Result<Vec<u8>, OutOfMemory>
    requires { (1 ≤ n) × (n ≤ 1000000) }
    ensures { IfOk result (λ file. file.items ≡ people_file n) }
{
    let mut file = Vec::from_slice(alloc, b"id,age\n")?;
    for i in 0..n {
        push_person_line(&mut file, i)?;
    }
    Ok(file)
}

/// Returns the file of the edges among `n` people: the header `from,to,w`, and two lines for each person.
///
/// The edges of person i lead to i + 1 and to 7 i + 3, both mod n, with the weights i and i + 1, both mod 100. Lines
/// may name the same edge.
pub fn knows_csv(alloc: Global, n: u32) -> Result<Vec<u8>, OutOfMemory>
    requires { (1 ≤ n) × (n ≤ 1000000) }
    ensures { IfOk result (λ file. file.items ≡ knows_file n) }
{
    let mut file = Vec::from_slice(alloc, b"from,to,w\n")?;
    for i in 0..n {
        push_edge_lines(&mut file, n, i)?;
    }
    Ok(file)
}

fn push_person_line(file: &mut Vec<u8>, i: u32) -> Result<(), OutOfMemory>
    ensures { OnOk result (file.new.items ≡ file.old.items ++ person_line i) }
{
    push_person(file, i)?;
    push_last(file, i % 90)?;
    Ok(())
}

fn push_edge_lines(file: &mut Vec<u8>, n: u32, i: u32) -> Result<(), OutOfMemory>
    requires { (i < n) × (n ≤ 1000000) }
    ensures { OnOk result (file.new.items ≡ file.old.items ++ edge_lines n i) }
{
    push_edge_line(file, i, (i + 1) % n, i % 100)?;
    push_edge_line(file, i, (7 * i + 3) % n, (i + 1) % 100)?;
    Ok(())
}

fn push_edge_line(file: &mut Vec<u8>, from: u32, to: u32, weight: u32) -> Result<(), OutOfMemory>
    ensures { OnOk result (file.new.items ≡ file.old.items ++ edge_line from to weight) }
{
    push_person(file, from)?;
    file.push(b',')?;
    push_person(file, to)?;
    push_last(file, weight)?;
    Ok(())
}

// Appends the last field of a line, which is a number, with the comma before it and the line feed after it.
fn push_last(file: &mut Vec<u8>, number: u32) -> Result<(), OutOfMemory>
    ensures { OnOk result (file.new.items ≡ file.old.items ++ last_field number) }
{
    file.push(b',')?;
    push_number(file, number)?;
    file.push(b'\n')?;
    Ok(())
}

fn push_person(file: &mut Vec<u8>, i: u32) -> Result<(), OutOfMemory>
    ensures { OnOk result (file.new.items ≡ file.old.items ++ person i) }
{
    file.push(b'p')?;
    push_number(file, i)?;
    Ok(())
}

fn push_number(file: &mut Vec<u8>, number: u32) -> Result<(), OutOfMemory>
    ensures { OnOk result (file.new.items ≡ file.old.items ++ decimal number) }
{
    file.extend_from_slice(Buffer::new().format(number).as_bytes())?;
    Ok(())
}
