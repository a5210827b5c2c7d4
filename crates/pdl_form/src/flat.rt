// A flat form as the program keeps it.
ghost use Rattle.std.specs.Prelude.{◌≡◌, length};
ghost use Rattle.pdl_semantics.specs.Stages.{verify_stage};
ghost use Rattle.pdl_semantics.specs.Updates.{update_stage};
ghost use Rattle.pdl_form.specs.View.{stmts_view};
ghost use Rattle.pdl_form.specs.Form.{rows_below};

use crate::form::{FlatMem, FlatStage, FlatStmt};
use pdl_kit::Seq;
use pdl_word::Word;

/// A pipe in flat form: what its threads, its machine and its circuit are made from.
pub struct FlatPipe {
    pub(crate) widths: Vec<u8>,
    pub(crate) mems: Vec<FlatMem>,
    pub(crate) stmts: Vec<FlatStmt>,
    pub(crate) stages: Vec<FlatStage>,
    pub(crate) start: Vec<Word>,
    pub(crate) reserved: Vec<Option<usize>>,
    pub(crate) released: Vec<Option<usize>>,
    pub(crate) verified: Option<usize>,
    pub(crate) updated: Option<usize>,
    // The numbers of the statements of each stage.
    pub(crate) rows: Vec<Seq<usize>>,
    pub ghost told: { verified ≡ verify_stage (stmts_view stmts.items) },
    pub ghost replaced: { updated ≡ update_stage (stmts_view stmts.items) },
    pub ghost by_stage: { rows.items ≡ rows_below (length stages.items) (stmts_view stmts.items) },
}

// As the derive would, but by a call of its owners: docs/DECISIONS.md says why.
impl Drop for FlatPipe {
    fn drop(self) {
        let FlatPipe {
            widths: _,
            mems: _,
            stmts: _,
            stages: _,
            start: _,
            reserved: _,
            released: _,
            verified: _,
            updated: _,
            rows: _,
        } = self;
    }
}
