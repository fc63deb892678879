// A document that was checked.
ghost use Rattle.std.specs.Prelude.{IsTrue, ◌≤◌, vec_len};
ghost use Rattle.documents.specs.Documents.{most_rows};
ghost use Rattle.xml_document.specs.Names.{name_count};
ghost use Rattle.xml_document.specs.Xml.{AreXml, IsColumn};

use crate::columns::Columns;
use crate::names::Names;
use crate::rows::Rows;

/// A document that XML can have, with the names and the namespaces that its nodes are numbered by, and how many lines
/// its file has.
#[derive(Debug, Drop)]
pub struct Document {
    pub kinds: Vec<u8>,
    pub parents: Vec<u32>,
    pub names: Vec<u32>,
    pub namespaces: Vec<u32>,
    pub lines: Vec<u32>,
    pub line_count: u32,
    pub name_table: Names,
    pub namespace_table: Names,
    pub ghost xml: { AreXml kinds.items parents.items names.items },
    pub ghost few: { vec_len kinds ≤ most_rows },
    pub ghost named: { IsColumn (vec_len kinds) (name_count name_table) names.items },
    pub ghost spaced: { IsColumn (vec_len kinds) (name_count namespace_table) namespaces.items },
    pub ghost lined: { IsColumn (vec_len kinds) line_count lines.items },
}

// Whether a column has a number for each of so many rows, each at most the one given.
fn is_column(column: &[u32], rows: usize, most: usize) -> bool
    ensures { IsTrue result → IsColumn rows most column.now }
{
    column.len() == rows && column.iter().all(|&number| number as usize <= most)
}

impl Document {
    /// The document of rows, if they are one, with a line for each.
    pub fn new(
        rows: Rows,
        name_table: Names,
        namespace_table: Names,
        line_count: u32,
    ) -> Option<Document> {
        let Rows {
            kinds,
            parents,
            names,
            namespaces,
            lines,
        } = rows;
        let count = kinds.len();
        if count > u32::MAX as usize {
            return None;
        }
        if parents.len() != count || !is_column(names.as_slice(), count, name_table.len()) {
            return None;
        }
        if !is_column(namespaces.as_slice(), count, namespace_table.len()) {
            return None;
        }
        if !is_column(lines.as_slice(), count, line_count as usize) {
            return None;
        }
        let columns = Columns {
            kinds: kinds.as_slice(),
            parents: parents.as_slice(),
            names: names.as_slice(),
        };
        if !columns.is_xml() {
            return None;
        }
        Some(Document {
            kinds,
            parents,
            names,
            namespaces,
            lines,
            line_count,
            name_table,
            namespace_table,
        })
    }
}
