//! The words of tables: a table has eight of them, each of 64 bits. That is so of every table that there
//! is, and known of one once it has been read.

ghost use Rattle.image_defs.specs.Places.{Each};
ghost use Rattle.image_file.specs.Ranges.{tables_of};
ghost use Rattle.func_table.specs.Entries.{HasWords};

use func_table::Table;
use image_defs::{Image, PortImage, Work};

/// Reads each table of an image, and so knows what its words are.
pub(crate) fn read_words(image: &Image)
    ensures { Each (λ port. Each HasWords (tables_of port.work)) image.now.ports }
{
    let ports = image.ports.as_slice();
    'ports: for p in 0..ports.len() {
        port_words(&ports[p]);
    }
}

fn port_words(port: &PortImage)
    ensures { Each HasWords (tables_of port.now.work) }
{
    match &port.work {
        Work::Logic { tables, .. } => tables_words(tables.as_slice()),
        Work::Array { .. } => {}
        Work::Host { .. } => {}
    }
}

fn tables_words(tables: &[Table])
    ensures { Each HasWords tables.now }
{
    'tables: for k in 0..tables.len() {
        table_words(tables[k]);
    }
}

fn table_words(_table: Table)
    ensures { HasWords _table }
{}
