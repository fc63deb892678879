// The text of an XML document: its encoding, its characters, names and character references, the XML declaration, and
// the places in it. [n] is the number of a production of XML 1.0, fifth edition.
//
// Functions that take a place ask that it doesn't pass the text's end: the readers above go from place to place, each
// of which the one before it has found, and a test here would be made a second time for each byte.
#![tactic(auto)]

pub mod characters;
pub mod declaration;
pub mod encoding;
pub mod position;
pub mod reason;
pub mod references;
