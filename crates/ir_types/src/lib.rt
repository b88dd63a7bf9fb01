//! The module of textual LLVM IR that every part of the program speaks of: items, functions, blocks, instructions.
//!
//! These are plain data, which contracts see as records of lists and enums. Ids name values: `region` 0 for what was read, and
//! for what a region's rewriting created the region's number plus 1. Each type can be copied (`TryClone`, want of memory is its
//! only failure) and compared (`Equal`, which is equality).
#![tactic(auto)]

mod call_site;
mod func;
mod id;
mod id_table;
mod inst;
mod literal;
mod lits;
mod module;
mod op;
mod opd;
mod sizes;
mod table;
mod ty;

pub use call_site::CallSite;
pub use func::{Block, Func, Param};
pub use id::{Id, Place, Use};
pub use id_table::IdTable;
pub use inst::Inst;
pub use literal::Literal;
pub use lits::{Lanes, Lits};
pub use module::{Item, Module};
pub use op::Op;
pub use opd::Opd;
pub use table::Table;
pub use ty::{Elem, Ty};
pub use vx_list::OutOfMemory;
use vx_list::{Seq, Short, Text};

/// Text as its bytes.
pub type Bytes = Text;
/// A list of texts that are names.
pub type Names = Seq<Bytes>;
/// A list of texts that are none.
pub type Texts = Seq<Bytes>;
/// A list of numbers, as of blocks.
pub type Numbers = Seq<u32>;
/// A list of ids.
pub type Ids = Seq<Id>;
/// A list of operands, of which most instructions have one or two.
pub type Opds = Short<Opd, 2>;
/// A list of instructions.
pub type Insts = Seq<Inst>;
/// A list of parameters.
pub type Params = Seq<Param>;
/// A list of blocks.
pub type Blocks = Seq<Block>;
/// A list of items.
pub type Items = Seq<Item>;
/// A list of uses.
pub type Uses = Seq<Use>;
