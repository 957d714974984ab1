//! The laws of the texts. Each function does nothing: its contract is a law, which the check proves, so that what is said here is
//! a theorem about the definitions and not about one program.
ghost use Rattle.std.specs.Prelude.{◌≡◌, ℕ, List};
ghost use Rattle.mem_num.specs.declared.alloc_id.AllocId.{AllocId};
ghost use Rattle.mem_model.specs.LawfulState.{IsLawfulState};
ghost use Rattle.mem_model.specs.TreeNode.{IsAllocatorTree};
ghost use Rattle.mem_model.specs.TreeState.{TreeState};
ghost use Rattle.leak_report.specs.LawfulReport.{IsLawful, IsLawfulReport};
ghost use Rattle.leak_report.specs.PrintableTree.{IsPrintable};
ghost use Rattle.leak_report.specs.ReadReport.{read_report};
ghost use Rattle.leak_report.specs.Report.{Report, printed_text, report_of};
ghost use Rattle.leak_report.specs.ReportText.{report_text};
ghost use Rattle.leak_report.specs.TreeText.{text_below, children_text};

/// The text below an allocator is, child by child in order of number, the child's line and the text below that child.
pub fn text_below_goes_child_by_child()
    ensures { (names : List (List (List ℕ × AllocId))) (peaks : ℕ → ℕ) (state : TreeState) (depth n : ℕ) →
        IsAllocatorTree state.nodes →
        text_below names peaks state depth n ≡ children_text names peaks state depth n }
{}

/// The report of a tree is the text of its open allocators and its live chunks. In every lawful tree their numbers agree, so its
/// text is a lawful report, where bound names are names and the numbers that are printed fit.
pub fn report_of_a_lawful_tree_is_lawful()
    ensures printed { (names : List (List (List ℕ × AllocId))) (peaks : ℕ → ℕ) (state : TreeState) →
        IsAllocatorTree state.nodes →
        report_text names peaks state ≡ printed_text (report_of names peaks state) }
    ensures report { (names : List (List (List ℕ × AllocId))) (peaks : ℕ → ℕ) (state : TreeState) →
        IsLawfulState state → IsPrintable names peaks state →
        IsLawful (report_of names peaks state) }
    ensures lawful { (names : List (List (List ℕ × AllocId))) (peaks : ℕ → ℕ) (state : TreeState) →
        IsLawfulState state → IsPrintable names peaks state →
        IsLawfulReport (report_text names peaks state) }
{}

/// The text of a lawful report determines all that it says: two lawful reports with the same text are the same, with each
/// allocator's parent, which no line names. So two trees with the same text have the same open allocators and the same chunks.
pub fn text_determines_its_report()
    ensures reports { (one other : Report) → IsLawful one → IsLawful other →
        printed_text one ≡ printed_text other → one ≡ other }
    ensures trees { (names others : List (List (List ℕ × AllocId))) (peaks highs : ℕ → ℕ)
        (state other : TreeState) → IsLawfulState state → IsLawfulState other →
        IsPrintable names peaks state → IsPrintable others highs other →
        report_text names peaks state ≡ report_text others highs other →
        report_of names peaks state ≡ report_of others highs other }
{}

/// A lawful report is what its text is read as.
pub fn lawful_report_is_read_back()
    ensures { (report : Report) → IsLawful report → read_report (printed_text report) ≡ report }
{}
