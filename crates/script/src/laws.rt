//! The laws of traces. Each function does nothing: its contract is a law, which the check proves.
ghost use Rattle.std.specs.Prelude.{◌≡◌, ℕ, List, ◌∷◌, ◌++◌};
ghost use Rattle.leak_report.specs.LawfulReport.{IsLawfulReport};
ghost use Rattle.script.specs.Grammar.{ScriptParts, IsScript, lines_of};
ghost use Rattle.script.specs.References.{KeepsReferences};
ghost use Rattle.script.specs.Trace.{line_result, opened_trace, trace_after, text_of, trace_text};
ghost use Rattle.script.specs.declared.form.Form.TheVariants as form;
ghost use Rattle.script.specs.declared.line.Line.{Line};
ghost use Rattle.script.specs.declared.line.Line.TheVariants.{Report};

/// Each report that a trace prints is lawful: where the script asks for one after some lines, it stands in the text behind what
/// those lines print.
pub fn reports_of_a_trace_are_lawful()
    ensures lawful { (text : List (List ℕ)) (script : ScriptParts) (said more : List Line) →
        IsScript form.Trace text script → lines_of script ≡ said ++ Report ∷ more →
        IsLawfulReport (line_result (trace_after (opened_trace script.limit) said) Report).text }
    ensures printed { (script : ScriptParts) (said more : List Line) →
        lines_of script ≡ said ++ Report ∷ more →
        let state = trace_after (opened_trace script.limit) said in
        trace_text script ≡ text_of (opened_trace script.limit) said
        ++ ((line_result state Report).text ++ text_of state more) }
{}

/// After any lines of a script each allocator has as many references to each chunk as it was given there and didn't give back, and
/// `refs` in a report counts them all. A name whose reference wasn't given back is of a live chunk, so that no line on it is
/// answered `released`.
pub fn references_of_a_trace_are_those_given()
    ensures { (text : List (List ℕ)) (script : ScriptParts) (said more : List Line) →
        IsScript form.Trace text script → lines_of script ≡ said ++ more →
        KeepsReferences (trace_after (opened_trace script.limit) said) }
{}
