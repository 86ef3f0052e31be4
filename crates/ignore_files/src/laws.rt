//! Laws on files.
ghost use Rattle.std.specs.Prelude.{◌≡◌};
ghost use Rattle.ignore_files.specs.Gives.{IsHonest};
ghost use Rattle.ignore_files.specs.Disk.{files_on, machine_of, tree_on};
ghost use Rattle.ignore_files.specs.Table.{disk_of};
ghost use Rattle.ignore_files.specs.declared.disk.DiskFiles.{DiskFiles};
ghost use Rattle.ignore_files.specs.declared.table.TableMachine.{TableMachine};

use crate::machine::Machine;
use crate::table::{RowEntry, TableMachine};
use std::alloc::Global;
use std::io;
use std::vec::IntoIter;

/// The files of a machine by a table are consistent with the tree of its rows, whatever these are.
pub fn files_of_a_table(machine: &TableMachine)
    ensures { (files : DiskFiles TableMachine) → machine_of files ≡ machine.now
        → IsHonest (files_on ⟦<TableMachine as Machine>⟧ ⟦<IntoIter<io::Result<RowEntry>, Global> as Iterator>⟧.next_gives) files
        (tree_on (disk_of machine.now)) }
{
    machine.is_truthful();
}
