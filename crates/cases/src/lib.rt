// The worked runs, layings and calls, proved about the definitions.
#![tactic(auto)]

ghost use Rattle.cases.specs.Calling.{AllAnswer};
ghost use Rattle.cases.specs.Computing.{divisions, sums};
ghost use Rattle.cases.specs.Edges.{edges, saves, twice, wraps};
ghost use Rattle.cases.specs.Ending.{endings, unknowns};
ghost use Rattle.cases.specs.Layings.{LayingsHold, area_ends, laid_sizes, layings, orders, overlaps, row_counts, row_fields};
ghost use Rattle.cases.specs.Moving.{literals, loads, moves, stores};
ghost use Rattle.cases.specs.Readings.{AllRead, readings};
ghost use Rattle.cases.specs.Recording.{RunRecords};
ghost use Rattle.cases.specs.Refusing.{AcceptedRuns, compartments, indexes, lowest, memories, refused_runs, spans};
ghost use Rattle.cases.specs.Runs.{RanFromFiles, RanFromRegisters};
ghost use Rattle.cases.specs.Stacking.{jumps, offsets, stacks};
ghost use Rattle.cases.specs.Widening.{comparisons, extensions};
ghost use Rattle.cases.specs.Worked.{worked};

// Each run of each list gives what it is to give.
pub fn worked_runs_hold()
    ensures worked { RanFromFiles worked }
    ensures endings { RanFromRegisters endings }
    ensures unknowns { RanFromRegisters unknowns }
    ensures literals { RanFromRegisters literals }
    ensures loads { RanFromRegisters loads }
    ensures stores { RanFromRegisters stores }
    ensures moves { RanFromRegisters moves }
    ensures sums { RanFromRegisters sums }
    ensures divisions { RanFromRegisters divisions }
    ensures extensions { RanFromRegisters extensions }
    ensures comparisons { RanFromRegisters comparisons }
    ensures jumps { RanFromRegisters jumps }
    ensures stacks { RanFromRegisters stacks }
    ensures offsets { RanFromRegisters offsets }
    ensures edges { RanFromRegisters edges }
    ensures wraps { RanFromRegisters wraps }
    ensures twice { RanFromRegisters twice }
    ensures saves { RanFromFiles saves }
{}

// Each instruction of the list is read as its case says.
pub fn worked_readings_hold()
    ensures { AllRead readings }
{}

// Each laying of each list answers what its case says.
pub fn worked_layings_hold()
    ensures layings { LayingsHold layings }
    ensures row_counts { LayingsHold row_counts }
    ensures laid_sizes { LayingsHold laid_sizes }
    ensures row_fields { LayingsHold row_fields }
    ensures area_ends { LayingsHold area_ends }
    ensures overlaps { LayingsHold overlaps }
    ensures orders { LayingsHold orders }
{}

// Each call of each list answers what its case says, and leaves what it says.
pub fn worked_calls_hold()
    ensures memories { AllAnswer memories }
    ensures compartments { AllAnswer compartments }
    ensures spans { AllAnswer spans }
    ensures indexes { AllAnswer indexes }
    ensures accepted_runs { AcceptedRuns }
    ensures refused_runs { AllAnswer refused_runs }
    ensures lowest { AllAnswer lowest }
{}

// A run that is accepted leaves its bytes and its record, and no other record.
pub fn worked_record_holds()
    ensures { RunRecords }
{}
