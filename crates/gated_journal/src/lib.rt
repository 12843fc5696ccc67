//! The journal of a disk: records with gates. After a crash at any moment, each record is either whole or absent.
#![tactic(auto)]

mod append;
mod area;
mod area_pair;
mod chosen;
mod gate;
mod grow;
mod head;
pub mod laws;
pub mod lengths;
mod made;
mod read;
mod record;
pub mod record_laws;
mod records;
mod scanned;
mod side;

pub use append::OPEN;
pub use area::Area;
pub use area_pair::AreaPair;
pub use chosen::{Chosen, choose};
pub use gate::GateState;
pub use head::AreaHead;
pub use made::make_areas;
pub use record::Record;
pub use records::record_at;
pub use scanned::{ScannedArea, scan};
pub use side::Side;
