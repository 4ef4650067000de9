//! Laws of imports, over whole runs of the abstract office: a batch acts once. Each function here
//! does nothing: its contract is the law.
#![tactic(auto)]

ghost use Rattle.off_import_runs.specs.Laws.{BatchesArePutOnce, OnlyImportsPut, ImportsDo};
ghost use Rattle.off_import_runs.specs.Laws.{ImportsActOnceOverRuns};

/// Over a run each batch is put at most once, and not where it stood; what stands stays as it is.
pub fn a_batch_is_put_once()
    ensures { BatchesArePutOnce }
{}

/// Nothing puts a batch but an import of it that is done.
pub fn only_imports_put_batches()
    ensures { OnlyImportsPut }
{}

/// An import that is done stands from then on; one whose batch stands is answered as it was then,
/// or by the rule that it differs, and one that is refused writes nothing.
pub fn an_import_is_done_once()
    ensures { ImportsDo }
{}

/// All this holds over each stretch of a run.
pub fn imports_act_once()
    ensures { ImportsActOnceOverRuns }
{}
