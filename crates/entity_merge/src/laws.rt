ghost use Rattle.std.specs.Prelude.{◌≡◌, true, List, ℕ, Option, Some, None, Ok};
ghost use Rattle.field_ids.specs.Draws.{NextDraw};
ghost use Rattle.entity_lists.specs.Entities.{IdsDiffer, entity_place};
ghost use Rattle.entity_lists.specs.declared.entities.EntityRow.{EntityRow};
ghost use Rattle.entity_lists.specs.declared.entities.ServerRow.{ServerRow};
ghost use Rattle.entity_merge.specs.declared.actions.Action.{Action};
ghost use Rattle.entity_merge.specs.Actions.{acted_rows};
ghost use Rattle.entity_merge.specs.Laws.{HaveVersions, NewerStay, OfflineStay, ServeVersions};
ghost use Rattle.entity_merge.specs.Merging.{merged_row, merged_rows};
ghost use Rattle.entity_merge.specs.VersionTable.{Becomes};

/// A law of the definitions: what becomes of a local row is a line of the table of versions.
pub fn table_of_versions()
    ensures { (branch : List ℕ) (l : EntityRow) (s : Option ServerRow)
        → Becomes branch (Some l) s (merged_row (λ _. branch) l s) }
{}

/// A law of the definitions: what was made here, and what the server lacks, isn't lost by a merge.
pub fn offline_rows_stay()
    ensures { (locals : List EntityRow) (rows : List ServerRow) (draws : NextDraw)
        → OfflineStay locals rows (merged_rows locals rows draws) }
{}

/// A law of the definitions: what was changed here since the server's version isn't lost by a merge.
pub fn newer_rows_stay()
    ensures { (locals : List EntityRow) (rows : List ServerRow) (draws : NextDraw)
        → NewerStay locals rows (merged_rows locals rows draws) }
{}

/// Laws of the definitions: the ids of a list differ after a merge and after an action too.
pub fn ids_stay_different()
    ensures merge { (locals : List EntityRow) (rows : List ServerRow) (draws : NextDraw)
        → IdsDiffer locals → IdsDiffer (merged_rows locals rows draws) }
    ensures action { (rows : List EntityRow) (action : Action) (draws : NextDraw) (after : List EntityRow)
        → IdsDiffer rows → (action.create ≡ true → entity_place action.id rows ≡ None)
        → acted_rows rows action draws ≡ Ok after → IdsDiffer after }
{}

/// Laws of the definitions: versions are within their limit after a merge and after an action too.
pub fn versions_stay_within_their_limit()
    ensures merge { (locals : List EntityRow) (rows : List ServerRow) (draws : NextDraw)
        → HaveVersions locals → ServeVersions rows → HaveVersions (merged_rows locals rows draws) }
    ensures action { (rows : List EntityRow) (action : Action) (draws : NextDraw) (after : List EntityRow)
        → HaveVersions rows → acted_rows rows action draws ≡ Ok after → HaveVersions after }
{}
