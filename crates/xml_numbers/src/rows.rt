// A document with the numbers of its names.
ghost use Rattle.std.specs.Prelude.{◌≡◌, ◌≤◌, ◌<◌, ◌++◌, ◌∷◌, [], not, ◌&&◌, eqb, length, slice_index};
ghost use Rattle.std.specs.Prelude.{IfOk, OnOk, MatchResult};
ghost use Rattle.selector_words.specs.private.Index.{max_length};
ghost use Rattle.xml_numbers.specs.Numbers.{listed, sought, spare, number_by, number_at, NumbersTo, Refuses};
ghost use Rattle.xml_numbers.specs.private.Columns.{TableListed, Column};

use crate::number_error::NumberError;
use crate::numbering::{Lookup, Numbering, Unlisted};
use crate::word::is_word;
use documents::{DocumentError, Rows};
use selector_words::{Names, Word};
use std::alloc::{AllocError, Global};
use xml_document::Document;

// A longer list is not indexed: a place in it is no number of 32 bits.
const MAX_LIST: usize = 4294967295;

// The number that the list has for a name; 0 where it has none.
fn listed(names: Names<'_>, name: &[u8]) -> u16
    ensures { result ≡ listed names.entry.list.now name.now }
{
    let has_word = is_word(name);
    if !has_word {
        return 0;
    }
    match selector_words::list::number_of(names, Word { bytes: name }) {
        Some(number) => number,
        None => 0,
    }
}

// The numbers that the list has for the names of a table.
fn numbers_by(
    names: Names<'_>,
    table: &xml_document::Names,
    alloc: Global,
) -> Result<Vec<u16>, AllocError>
    ensures { IfOk result (λ v. TableListed names.entry.list.now table.now v.items) }
{
    let mut numbers = Vec::new(alloc);
    for index in 0..table.len() {
        let number = listed(names, table.nth(index));
        put(&mut numbers, number)?;
    }
    Ok(numbers)
}

// The same, by an index of the list.
fn numbers_indexed(
    list: &[u8],
    table: &xml_document::Names,
    alloc: Global,
) -> Result<Vec<u16>, AllocError>
    requires { length list.now ≤ max_length }
    ensures { IfOk result (λ v. TableListed list.now table.now v.items) }
{
    let mut index = selector_words::index::blank_index();
    let (size, others) = selector_words::index::index_lines(list, &mut index);
    let names = Names {
        list,
        index: &index[..size],
        others,
    };
    numbers_by(names, table, alloc)
}

// The same, with an index or without.
fn table_numbers(
    list: &[u8],
    table: &xml_document::Names,
    alloc: Global,
) -> Result<Vec<u16>, AllocError>
    ensures { IfOk result (λ v. TableListed list.now table.now v.items) }
{
    if list.len() <= MAX_LIST {
        return numbers_indexed(list, table, alloc);
    }
    let names = Names {
        list,
        index: &[],
        others: 0,
    };
    numbers_by(names, table, alloc)
}

// The number of the names that the list lacks; 0 for none.
fn spare(list: &[u8], unlisted: Unlisted) -> u16
    ensures { result ≡ spare unlisted list.now }
{
    match unlisted {
        Unlisted::Refused => 0,
        Unlisted::Spare => {
            let count = lines::names::count(list);
            if count < common::MAX_NUMBER as usize {
                count as u16 + 1
            } else {
                0
            }
        }
    }
}

// The number that is sought, of a name that the list has a number for.
fn sought(lookup: Lookup, number: u16, namespace: u32) -> u16
    ensures { result ≡ sought lookup number namespace }
{
    match lookup {
        Lookup::NoNamespace => { if namespace == 0 { number } else { 0 } }
        Lookup::LocalPart => number,
    }
}

// The number in a place; 0 past the last.
fn number_in(numbers: &[u16], index: usize) -> u16
    ensures { result ≡ slice_index numbers.now index }
{
    if index < numbers.len() {
        numbers[index]
    } else {
        0
    }
}

// The number of a name by those of the table; 0 for none.
fn number_by(
    numbering: Numbering<'_>,
    table: &xml_document::Names,
    numbers: &[u16],
    spare_number: u16,
    name: u32,
    namespace: u32,
) -> u16
    requires numbers_value { TableListed numbering.list.now table.now numbers.now }
    requires spare_value { spare_number ≡ spare numbering.unlisted numbering.list.now }
    ensures { result ≡ number_by numbering.entry.list.now numbering.entry.lookup numbering.entry.unlisted table.now
        name namespace }
{
    if name == 0 {
        return 0;
    }
    let listed = number_in(numbers, (name - 1) as usize);
    let number = sought(numbering.lookup, listed, namespace);
    if number == 0 { spare_number } else { number }
}

// The number of the name of a row; 0 for none.
fn number_at(
    document: &Document,
    numbering: Numbering<'_>,
    numbers: &[u16],
    spare_number: u16,
    row: usize,
) -> u16
    requires numbers_value { TableListed numbering.list.now document.now.name_table numbers.now }
    requires spare_value { spare_number ≡ spare numbering.unlisted numbering.list.now }
    requires row { row < length document.now.kinds.items }
    ensures { result ≡ number_at document.now numbering.entry row }
{
    let names = document.names.as_slice();
    let namespaces = document.namespaces.as_slice();
    number_by(
        numbering,
        &document.name_table,
        numbers,
        spare_number,
        names[row],
        namespaces[row],
    )
}

// Whether a row, with the number of its name, has a name that has none.
fn is_unnumbered(document: &Document, row: usize, number: u16) -> bool
    requires { row < length document.now.kinds.items }
    ensures { result ≡ (not (eqb (slice_index document.now.names.items row) 0) && eqb number 0) }
{
    let names = document.names.as_slice();
    names[row] != 0 && number == 0
}

// The numbers of the names of all rows.
fn column(
    document: &Document,
    numbering: Numbering<'_>,
    alloc: Global,
) -> Result<Vec<u16>, NumberError>
    ensures { MatchResult result (λ v. Column document.now numbering.entry v.items)
        (λ e. Refuses document.now numbering.entry e) }
{
    let numbers = table_numbers(numbering.list, &document.name_table, alloc)?;
    let spare_number = spare(numbering.list, numbering.unlisted);
    let lines = document.lines.as_slice();
    let mut column = Vec::new(alloc);
    for row in 0..document.kinds.len() {
        let number = number_at(document, numbering, numbers.as_slice(), spare_number, row);
        let is_unnumbered = is_unnumbered(document, row, number);
        if is_unnumbered {
            let line = lines[row];
            return Err(NumberError::Unlisted { row, line });
        }
        put(&mut column, number)?;
    }
    Ok(column)
}

fn put(numbers: &mut Vec<u16>, number: u16) -> Result<(), AllocError>
    ensures { OnOk result (numbers.new.items ≡ numbers.old.items ++ number ∷ []) }
{
    numbers.push(number)?;
    Ok(())
}

/// The document that selectors are evaluated on: the rows of one that was read, with numbers for its names.
pub fn numbered(
    document: &Document,
    numbering: Numbering<'_>,
    alloc: Global,
) -> Result<documents::Document, NumberError>
    ensures { NumbersTo document.now numbering.entry result }
{
    let names = column(document, numbering, alloc)?;
    let old_kinds = document.kinds.as_slice();
    let kinds = Vec::from_slice(alloc, old_kinds)?;
    let old_parents = document.parents.as_slice();
    let parents = Vec::from_slice(alloc, old_parents)?;
    let rows = Rows {
        kinds,
        parents,
        names,
    };
    match documents::Document::check(rows, alloc) {
        Ok(document) => Ok(document),
        Err(error) => match error {
            DocumentError::OutOfMemory => Err(NumberError::OutOfMemory),
            DocumentError::BadDocument(_row) => unreachable!(),
        },
    }
}
