//! What a scene is, what each line of a script does in it, and what a whole run answers.
//!
//! There is no code here that computes: the definitions in `specs/` are what the contracts of the session and of the program
//! speak of, and each function below takes nothing, gives nothing and does nothing: what it ensures are laws that the
//! definitions keep.
//!
//! A **scene** is a list of names in the order of their making, each with a dimension and what it stands for: the cells of an
//! input, or a formula over other names, its operands; and a list of **slots**, each with a meter of some kind that is free,
//! watches a name, or was given up. A **figure** is a cell set with its dimension. The **value** of a name is
//! a figure: the cells of an input, or what a formula makes of the values of its operands. A name **reaches** its operands and
//! what they reach. A scene is **well** where names differ, dimensions are 2 to 6, each input is a cell set, each formula fits
//! its operands, no shift and no lift makes a place out of the limits, operands stand, no name reaches itself, and watched names
//! stand.
//! A **step** is what one line does: its reply, the scene after it, and the file that it places. It is given what a fetch of
//! each file name gives. A command goes one of five **ways**: an edit, a question, a load, a save, or
//! a change of a slot. A **world** is a scene
//! and the files of a shelf. A **run** takes the lines of a script in order, each with a mark that says whether it was
//! answered, memory was missing, or the shelf failed; where a shelf does not tell its files, the mark also says what a load
//! fetched.
#![tactic(auto)]

ghost use Rattle.evm_model.specs.Laws.{SameIsEqual, RefusalsBeginWithNo, RepliesAreLines};
ghost use Rattle.evm_model.specs.Laws.{RefusalChangesNothing, QuestionsLeaveScene, OutOfLimitsIsRefused};
ghost use Rattle.evm_model.specs.Laws.{StepHasMemory, StartIsWell, StepsKeepWell, EditsKeepWell};
ghost use Rattle.evm_model.specs.Laws.{ValuesFollowFormulas, FormulasDetermineValues, ReachingFollowsFormulas};
ghost use Rattle.evm_model.specs.Laws.{NoneReachesItself, NamesHaveOrder, OrdersShowWell};
ghost use Rattle.evm_model.specs.Laws.{ShiftsMoveAllCells, LiftsKeepAllCells, OperandsStand, DimIsOfValue, ValuesAreCellSets};
ghost use Rattle.evm_model.specs.Laws.{OthersStay, OthersStand, InputsStartEmpty, BoxesCombine, ReplacementsHold, DefinitionsHold, DropsTakeOut};
ghost use Rattle.evm_model.specs.Laws.{ChangedReachName, NewNamesChangeNone, DropsChangeNone, OneNameChanges};
ghost use Rattle.evm_model.specs.Laws.{SameFigureStays, ToggleChangesName, ToggleCountsName};
ghost use Rattle.evm_model.specs.Laws.{EditsLeaveSlots, SlotsLeaveNames, AttachedReadsValue, ReadingsFollowEdits, GoneStays, SlotsAreFixed, NoSlotComesOrGoes};
ghost use Rattle.evm_model.specs.Laws.{OthersLeaveSlots, ReadsTellMeasures, NothingIsRead, HandoversTellMeasures, MetersAreGivenUp};
ghost use Rattle.evm_model.specs.Laws.{LoadsReadTheirFile, OthersReadNone, LoadsTakeFigure, MissingIsNoFile, MissingIsFetched, FormIsNoFigure};
ghost use Rattle.evm_model.specs.Laws.{SavesPlaceValues, OnlySavesPlace, ShelfIsAsked, SavedBytesTellSolids, SavedBytesTellNames, SavedBytesLoad, SavedBoxesLoad, FiguresAreCellSets};
ghost use Rattle.evm_model.specs.Laws.{RefusedLeavesWorld, AnswersKeepWell, RunsKeepWell, RunLeavesFiles, SavedFileIsThere, FetchedIsTold};
ghost use Rattle.evm_model.specs.Laws.{OneReplyEach, FrontOfRun, LaterLinesWait, LinesHaveNoLf, LinesMakeScript};

/// Replies and their texts.
///
/// - `begins`: the text of a reply begins with `no` exactly where the reply refuses.
/// - `lines`: the text of a reply is empty or ends with LF.
pub fn replies_show_refusals()
    ensures begins { RefusalsBeginWithNo }
    ensures lines { RepliesAreLines }
{}

/// What a line leaves.
///
/// - `refused`: a refused line leaves the scene, and places no file.
/// - `questions`: a line that is no edit leaves the scene.
/// - `limits`: an edit after which some formula would make a place out of the limits is refused.
/// - `memory`: no step answers want of memory, or that the shelf failed.
/// - `start`, `well`: each scene of a run is well.
/// - `edits`: an edit that is not refused keeps a scene well, where a figure that it states is a cell set.
pub fn steps_keep_scenes()
    ensures refused { RefusalChangesNothing }
    ensures questions { QuestionsLeaveScene }
    ensures limits { OutOfLimitsIsRefused }
    ensures memory { StepHasMemory }
    ensures start { StartIsWell }
    ensures well { StepsKeepWell }
    ensures edits { EditsKeepWell }
{}

/// What holds in each well scene, and so in each scene of a run.
///
/// - `values`: the value of an input is its cells, and that of a formula is what it makes of the values of its operands.
/// - `only`: nothing else follows the formulas, so that they determine the values.
/// - `shifts`: a shift moves each cell of its operand, and loses none at the limits.
/// - `lifts`: a lift has each cell of its operand at each of its heights, and loses none at the limits.
/// - `reaching`: a name reaches what it reads, what that reaches, and no more.
/// - `cycles`: no name reaches itself.
/// - `order`: so the names can be put in an order in which the operands of each come before it.
/// - `ordered`: where such an order is, operands stand and no name reaches itself, in every scene.
/// - `operands`: what a name reads stands.
/// - `dim`: the dimension of a name is that of its value.
/// - `cells`: each value is a cell set.
pub fn values_follow_formulas()
    ensures values { ValuesFollowFormulas }
    ensures only { FormulasDetermineValues }
    ensures shifts { ShiftsMoveAllCells }
    ensures lifts { LiftsKeepAllCells }
    ensures reaching { ReachingFollowsFormulas }
    ensures cycles { NoneReachesItself }
    ensures order { NamesHaveOrder }
    ensures ordered { OrdersShowWell }
    ensures operands { OperandsStand }
    ensures dim { DimIsOfValue }
    ensures cells { ValuesAreCellSets }
{}

/// What an edit makes of its name, and what it leaves.
///
/// - `others`: the values of names stay that are not the edited one and do not reach it.
/// - `stand`: an edit makes and takes out no other name.
/// - `input`: a new input has no cell.
/// - `own`: `toggle`, `add` and `cut` make the exclusive or, the union and the difference with the box.
/// - `replaced`: another figure for an input is its value.
/// - `formula`: `def` makes what the formula makes of the values that its operands have, and keep.
/// - `dropped`: after `drop` the name does not stand.
/// - `same`: two figures are the same exactly where they are equal.
pub fn edits_change_their_names()
    ensures others { OthersStay }
    ensures stand { OthersStand }
    ensures input { InputsStartEmpty }
    ensures own { BoxesCombine }
    ensures replaced { ReplacementsHold }
    ensures formula { DefinitionsHold }
    ensures dropped { DropsTakeOut }
    ensures same { SameIsEqual }
{}

/// How many names an edit changes.
///
/// - `reach`: none but its own and those that reach it.
/// - `made`, `dropped`: an edit that makes its name or takes it out changes no name.
/// - `one`: another figure under a name that no formula reads changes that name alone, or none where the figure is the same.
/// - `stays`: the figure that a name has already changes no value at all.
/// - `toggle`, `toggled`: a toggle that is not refused changes its name, and so counts at least one.
pub fn changes_are_counted()
    ensures reach { ChangedReachName }
    ensures made { NewNamesChangeNone }
    ensures dropped { DropsChangeNone }
    ensures one { OneNameChanges }
    ensures stays { SameFigureStays }
    ensures toggle { ToggleChangesName }
    ensures toggled { ToggleCountsName }
{}

/// Slots of meters, and what they read.
///
/// - `edits`: an edit leaves all slots.
/// - `names`: a change of a slot leaves all names.
/// - `attached`: a meter that is handed to a name reads the measure of its value.
/// - `follow`: a slot that watches a name reads the measure of the value that the name has after an edit.
/// - `gone`: a slot whose meter was given up is gone for good.
/// - `fixed`: there are as many slots after each line as before.
/// - `steady`: no line makes a slot or takes one out.
/// - `others`: a line that neither hands a meter to a name nor gives one up leaves all slots, and so what each watches.
/// - `read`: `read` of a slot that watches a name answers the measure of the value that the name has then.
/// - `unread`: of any other slot it is refused.
/// - `handed`: `meter` of a free slot and a name that stands answers the measure of the name's value then, and the slot watches it.
/// - `given_up`: `unmeter` of a slot that watches a name is carried out, and the slot is gone.
pub fn meters_watch_names()
    ensures edits { EditsLeaveSlots }
    ensures names { SlotsLeaveNames }
    ensures attached { AttachedReadsValue }
    ensures follow { ReadingsFollowEdits }
    ensures gone { GoneStays }
    ensures fixed { SlotsAreFixed }
    ensures steady { NoSlotComesOrGoes }
    ensures others { OthersLeaveSlots }
    ensures read { ReadsTellMeasures }
    ensures unread { NothingIsRead }
    ensures handed { HandoversTellMeasures }
    ensures given_up { MetersAreGivenUp }
{}

/// Loads read files.
///
/// - `own`: a load depends on the bytes under the name of its file alone.
/// - `others`: a line that fetches no file is the same whatever files there are.
/// - `takes`: a load that is not refused gives its name the figure that the bytes state.
/// - `missing`: a load is answered `no missing` exactly where nothing else refuses it before and there is no file of the name.
/// - `fetched`: no line is answered `no missing` that fetches no file.
/// - `form`: a load is answered `no form` exactly where it fetches bytes that state no figure in its form.
/// - `cells`: each figure that bytes state is a cell set of the dimension that was asked for.
pub fn loads_read_files()
    ensures own { LoadsReadTheirFile }
    ensures others { OthersReadNone }
    ensures takes { LoadsTakeFigure }
    ensures missing { MissingIsNoFile }
    ensures fetched { MissingIsFetched }
    ensures form { FormIsNoFigure }
    ensures cells { FiguresAreCellSets }
{}

/// Saves write files.
///
/// - `places`: a save that is not refused places the bytes of the value of its name.
/// - `only`: no other line places a file.
/// - `asks`: a line asks the shelf exactly where it fetches a file or is a save that its step does not refuse.
/// - `solids`: two solids are saved in equal EVM files exactly if they are equal.
/// - `names`: so two names of one dimension are saved in equal EVM files exactly if they have the same cells.
/// - `loads`: bytes state a solid as an EVM file exactly if it is saved in these bytes, or they are its file of version 1.
/// - `boxes`: the box file in which a solid is saved states this solid.
pub fn saves_write_files()
    ensures places { SavesPlaceValues }
    ensures only { OnlySavesPlace }
    ensures asks { ShelfIsAsked }
    ensures solids { SavedBytesTellSolids }
    ensures names { SavedBytesTellNames }
    ensures loads { SavedBytesLoad }
    ensures boxes { SavedBoxesLoad }
{}

/// What the lines of a run leave of a scene and of the files of a shelf.
///
/// - `refused`: a refused line leaves the scene and the files.
/// - `well`, `always`: each scene of a run is well.
/// - `files`: a run leaves each file to which none of its lines saves.
/// - `there`: a file that was saved is there.
/// - `told`: a load over a shelf that does not tell its files is that over files that have what was fetched.
pub fn runs_keep_worlds()
    ensures refused { RefusedLeavesWorld }
    ensures well { AnswersKeepWell }
    ensures always { RunsKeepWell }
    ensures files { RunLeavesFiles }
    ensures there { SavedFileIsThere }
    ensures told { FetchedIsTold }
{}

/// Runs go line by line.
///
/// - `each`: as many lines are answered as there are marks.
/// - `front`: the replies to a front of the lines are the front of the replies.
/// - `later`: they do not depend on later lines, and neither does the world after them.
/// - `no_lf`, `script`: the lines of a script have no LF, and with an LF behind each they are the script again.
pub fn runs_go_line_by_line()
    ensures each { OneReplyEach }
    ensures front { FrontOfRun }
    ensures later { LaterLinesWait }
    ensures no_lf { LinesHaveNoLf }
    ensures script { LinesMakeScript }
{}
