ghost use Rattle.std.specs.Prelude.{◌≡◌, ◌++◌, [], ◌∷◌, ℕ, List, Some, false, if◌then◌else◌, length, slice_get, slice_index_or, IfOk, OnOk};
ghost use Rattle.lid_check_names.specs.Names.{texts};
ghost use Rattle.lid_check_table.specs.Tables.{names_in};
ghost use Rattle.lid_check_table.specs.Marks.{marks_of};
ghost use Rattle.lid_check_hierarchy.specs.Nets.{clock_marks_of_all, inputs_by, inputs_of_all};

use lid_base::Items;
use lid_check_table::{Table, is_marked};
use std::alloc::{AllocError, Global};
use std::marker::Model;

/// A list of names that lie elsewhere. A contract sees the list of the names.
#[derive(Drop)]
pub struct NameList<'d> {
    names: Vec<&'d [u8]>,
}

impl<'d> Model for NameList<'d> {
    ghost use Rattle.std.specs.Prelude.{ℕ, List};
    ghost use Rattle.lid_check_names.specs.Names.{texts};

    ghost Value = { List (List ℕ) };

    ghost view = { λ s. texts s.names.items };
}

impl<'d> NameList<'d> {
    /// The names in order.
    pub fn as_slice(&self) -> &[&'d [u8]]
        ensures { texts result.now ≡ self.now }
    {
        self.names.as_slice()
    }
}

/// The data inputs of some models, by marks of their clock names.
pub fn find_inputs<'d>(
    alloc: Global,
    tables: &[Table<'d>],
    marks: &[Items<bool>],
) -> Result<Items<NameList<'d>>, AllocError>
    requires { length marks.now ≡ length tables.now }
    ensures { IfOk result (λ inputs. (clocks : List (List (List ℕ))) → length clocks ≡ length tables.now → marks.now ≡ clock_marks_of_all tables.now clocks → inputs ≡ inputs_of_all tables.now clocks) }
{
    let mut inputs = Vec::with_capacity(alloc, tables.len())?;
    for k in 0..tables.len() {
        inputs.push(inputs_of(alloc, &tables[k], marks[k].as_slice())?)?;
    }
    Ok(Items::from_vec(inputs))
}

/// The data inputs of a model: its inputs without clock names, by marks of these.
fn inputs_of<'d>(
    alloc: Global,
    table: &Table<'d>,
    marks: &[bool],
) -> Result<NameList<'d>, AllocError>
    ensures { IfOk result (λ inputs. (clocks : List (List ℕ)) → marks.now ≡ marks_of (names_in table.now) clocks → inputs ≡ inputs_by table.now clocks) }
{
    let mut names = Vec::new(alloc);
    for number in table.inputs() {
        push_unmarked(&mut names, table, marks, *number)?;
    }
    Ok(NameList { names })
}

/// Appends the name of a number, unless its mark is set.
fn push_unmarked<'d>(
    names: &mut Vec<&'d [u8]>,
    table: &Table<'d>,
    marks: &[bool],
    number: u32,
) -> Result<(), AllocError>
    ensures { OnOk result ((name : List ℕ) → slice_get (names_in table.now) number ≡ Some name → texts names.new.items ≡ texts names.old.items ++ (if slice_index_or marks.now number false then [] else name ∷ [])) }
{
    if is_marked(marks, number as usize) {
        return Ok(());
    }
    if let Some(name) = table.name_at(number as usize) {
        names.push(name)?;
    }
    Ok(())
}
