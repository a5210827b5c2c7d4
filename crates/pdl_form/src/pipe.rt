// Making a flat form, and reading it.
ghost use Rattle.std.specs.Prelude.{◌≡◌, ◌<◌, ℕ, map, length, slice_index, slice_index_or, None, IfOk};
ghost use Rattle.pdl_semantics.specs.Stages.{in_stage, verify_stage};
ghost use Rattle.pdl_semantics.specs.Updates.{update_stage};
ghost use Rattle.pdl_form.specs.View.{stmts_view, stages_view, mems_view, mem_names};
ghost use Rattle.pdl_form.specs.Form.{form_with, rows_in, stmt_at};
ghost use Rattle.pdl_form.specs.FormView.{form};

use crate::flat::FlatPipe;
use crate::form::{FlatMem, FlatStage, FlatStmt};
use crate::rows::{all_rows, release_stages, reserve_stages};
use crate::stmts::{update_stage, verify_stage};
use pdl_kit::NoMemory;
use pdl_word::Word;
use std::alloc::Global;

impl FlatPipe {
    /// A flat form of these parts: the widths of the variables in bits, the memories in declared order, the statements in text order, the stages by their numbers, and the first thread's arguments.
    pub fn new(
        alloc: Global,
        widths: Vec<u8>,
        mems: Vec<FlatMem>,
        stmts: Vec<FlatStmt>,
        stages: Vec<FlatStage>,
        start: Vec<Word>,
    ) -> Result<FlatPipe, NoMemory>
        ensures { IfOk result (λ f. form f
            ≡ form_with widths.items (mems_view mems.items) (mem_names mems.items)
            (stmts_view stmts.items) (stages_view stages.items) start.items) }
    {
        let reserved = reserve_stages(alloc, stmts.as_slice(), mems.as_slice())?;
        let released = release_stages(alloc, stmts.as_slice(), mems.as_slice())?;
        let rows = all_rows(alloc, stmts.as_slice(), stages.len())?;
        let verified = verify_stage(stmts.as_slice());
        let updated = update_stage(stmts.as_slice());
        Ok(FlatPipe {
            widths,
            mems,
            stmts,
            stages,
            start,
            reserved,
            released,
            verified,
            updated,
            rows,
        })
    }

    /// How many variables there are.
    pub fn vars(&self) -> usize
        ensures { result ≡ (form self.now).pipe.vars }
    {
        self.widths.len()
    }

    /// The width of a variable in bits.
    pub fn width(&self, x: usize) -> u8
        requires { x < (form self.now).pipe.vars }
        ensures { result ≡ slice_index (form self.now).widths x }
    {
        self.widths[x]
    }

    /// Lends the memories in declared order.
    pub fn mems(&self) -> &[FlatMem]
        ensures mems { mems_view result.now ≡ (form self.now).pipe.mems }
        ensures names { mem_names result.now ≡ (form self.now).names }
    {
        self.mems.as_slice()
    }

    /// Lends the statements in text order.
    pub fn stmts(&self) -> &[FlatStmt]
        ensures { stmts_view result.now ≡ (form self.now).pipe.stmts }
    {
        self.stmts.as_slice()
    }

    /// Lends the numbers of the statements of a stage, in text order.
    pub fn rows(&self, stage: usize) -> &[usize]
        requires { stage < length (form self.now).pipe.stages }
        ensures value { result.now ≡ rows_in stage 0 (form self.now).pipe.stmts }
        ensures stmts { map (stmt_at (form self.now).pipe.stmts) result.now
            ≡ in_stage stage (form self.now).pipe.stmts }
        ensures within { (j : ℕ) → j < length result.now →
            slice_index result.now j < length (form self.now).pipe.stmts }
    {
        let rows = &self.rows[stage];
        rows.as_slice()
    }

    /// Lends the stages by their numbers.
    pub fn stages(&self) -> &[FlatStage]
        ensures { stages_view result.now ≡ (form self.now).pipe.stages }
    {
        self.stages.as_slice()
    }

    /// Lends the first thread's arguments.
    pub fn start(&self) -> &[Word]
        ensures { result.now ≡ (form self.now).pipe.start }
    {
        self.start.as_slice()
    }

    /// The stage of a memory's reserves, where it has some.
    pub fn reserved(&self, mem: usize) -> Option<usize>
        requires { mem < length (form self.now).pipe.reserves_at }
        ensures { result ≡ slice_index_or (form self.now).pipe.reserves_at mem None }
    {
        self.reserved[mem]
    }

    /// The stage of a memory's releases, where it has some.
    pub fn released(&self, mem: usize) -> Option<usize>
        requires { mem < length (form self.now).pipe.releases_at }
        ensures { result ≡ slice_index_or (form self.now).pipe.releases_at mem None }
    {
        self.released[mem]
    }

    /// The stage of the verifies, where there are some.
    pub fn verify_stage(&self) -> Option<usize>
        ensures { result ≡ verify_stage (form self.now).pipe.stmts }
    {
        self.verified
    }

    /// The stage of the updates, where there are some before that of the verifies.
    pub fn update_stage(&self) -> Option<usize>
        ensures { result ≡ update_stage (form self.now).pipe.stmts }
    {
        self.updated
    }
}
