//! The laws of the definitions, each as the contract of a function without parameters.
#![tactic(auto)]

ghost use Rattle.std.specs.Prelude.{◌≡◌, ℕ, ℤ, true, List, Ok, Option, Some, ◌≤◌, ◌<◌, ◌^◌, ◌↔◌, ◌⊎◌, [], ◌∷◌, length, map, Err};
ghost use Rattle.asl_bits.specs.declared.TheConstants.{WIDTH_LIMIT};
ghost use Rattle.asl_grammar.specs.Reading.{File, ReadsAt, Reader, IsReadingAt};
ghost use Rattle.asl_grammar.specs.lexemes.Refusals.{max_width};
ghost use Rattle.asl_grammar.specs.lexemes.Texts.{LiesIn};
ghost use Rattle.asl_grammar.specs.lexemes.Tokens.{Tokens};
ghost use Rattle.asl_poly.specs.WidthLimits.{heaviest};
ghost use Rattle.asl_rules.specs.private.Agreement.{types_in};
ghost use Rattle.asl_laws.specs.AgreeingTypes.{DeclarationsAgree, ScopeFormed, TypesFormed, KeepsFormed};
ghost use Rattle.asl_laws.specs.Answers.{AreJudged, FaultOfFiles, FilesOk, OneAnswer};
ghost use Rattle.asl_laws.specs.BeforeRuns.{BeginsSo};
ghost use Rattle.asl_laws.specs.Described.{Describes};
ghost use Rattle.asl_rules.specs.runs.Machines.{run_of, visits_of};
ghost use Rattle.asl_rules.specs.declarations.Names.{names_rule, all_declared};
ghost use Rattle.asl_laws.specs.OneRun.{OneRun};
ghost use Rattle.asl_rules.specs.runs.Plans.{Meter};
ghost use Rattle.asl_rules.specs.declarations.Turns.{SoFar, turns, all_waiting, final, faults_rule, names_of_program};
ghost use Rattle.asl_rules.specs.declarations.Uses.{cycles_rule};
ghost use Rattle.asl_rules.specs.declarations.Programs.{Head, funcs_of, signatures, signatures_rule, Environment, Entries, Accepted, ProgramOk, ReadOk, ReadFault, default_decls, environment, final_decls, read_verdict, signature_rule, verdict};
ghost use Rattle.asl_rules.specs.declarations.Scopes.{Entry as Names, Scope, Body, is_free, type_of_name};
ghost use Rattle.asl_rules.specs.statements.Acting.{Done};
ghost use Rattle.asl_rules.specs.statements.Branches.{index_type, with_index, with_caught};
ghost use Rattle.asl_rules.specs.statements.Stmts.{found_stmt};
ghost use Rattle.asl_syn.specs.declared.tree.Direction.{Direction};
ghost use Rattle.asl_syn.specs.declared.tree.Expr.{Expr};
ghost use Rattle.asl_syn.specs.declared.tree.Ident.{Ident};
ghost use Rattle.asl_syn.specs.declared.tree.Stmt.{Stmt};
ghost use Rattle.asl_laws.specs.ScopeRules.{OutsideRules, AllBegin, KeepsRules, TypesOwn};
ghost use Rattle.asl_rules.specs.report.Report.{report_of};
ghost use Rattle.asl_laws.specs.Soundness.{Soundness, SameMeaning, IsCall};
ghost use Rattle.asl_rules.specs.runs.States.{Binding};
ghost use Rattle.asl_rules.specs.Tests.{Tests, IsRight};
ghost use Rattle.asl_rules.specs.report.Texts.{Text};
ghost use Rattle.asl_rules.specs.types.Types.{Ty, kind, kind_eq, same_kind};
ghost use Rattle.asl_rules.specs.values.Values.{Value};
ghost use Rattle.asl_rules.specs.private.WellFormed.{Shaped, WellDeclared};
ghost use Rattle.asl_rules.specs.report.WordList.{Word};
ghost use Rattle.asl_rules.specs.runs.Words.{run_words};
ghost use Rattle.asl_rules.specs.declared.entry.Entry.{Entry};
ghost use Rattle.asl_syn.specs.Command.{Command};
ghost use Rattle.asl_syn.specs.declared.code.Fault.{Fault};
ghost use Rattle.asl_syn.specs.declared.code.StaticCode.TheVariants.{T04};
ghost use Rattle.asl_syn.specs.declared.tree.Decl.{Decl};
ghost use Rattle.asl_syn.specs.declared.read.ReadDecl.{ReadDecl};
ghost use Rattle.asl_laws.specs.Budgets.{with_more, SameWithMore, SameWordsWithMore};
ghost use Rattle.asl_laws.specs.Evaluated.{Evaluates, HasCause, names_after};
ghost use Rattle.asl_laws.specs.MadeNames.{MadeApart, NoneMade};
ghost use Rattle.asl_laws.specs.Plain.{as_read};
ghost use Rattle.asl_laws.specs.Placeless.{StandSame, JudgesSame};
ghost use Rattle.asl_laws.specs.Reported.{RunsWell};
ghost use Rattle.asl_laws.specs.Settled.{StaysJudged, Settled, AllWell};
ghost use Rattle.asl_laws.specs.Codes.{HasRuleCode, HasReadingCode};
ghost use Rattle.asl_laws.specs.Visited.{AllSame};
ghost use Rattle.asl_laws.specs.Wider.{Fits, FitsLimit, WordsFitLimit};
ghost use Rattle.asl_laws.specs.WidthScopes.{StandsAsBefore, SaysSo};
ghost use Rattle.asl_laws.specs.WrittenVerdicts.{BothOk, FirstFault, ReportsFinal};
ghost use Rattle.asl_laws.specs.WidthWorth.{CountsWithin, HasWorth, HasWhole, SameWorth, HasIntegers};
ghost use Rattle.asl_rules.specs.expressions.Exprs.{found, width};
ghost use Rattle.asl_rules.specs.expressions.Typing.{Width, Number};
ghost use Rattle.asl_rules.specs.private.Worth.{Integers, Obeys, WellCounted};
ghost use Rattle.asl_syn.specs.declared.tree.Func.{Func};
ghost use Rattle.asl_syn.specs.declared.token.Span.{Span};
ghost use Rattle.asl_syn.specs.declared.token.Token.{Token};

/// One run: for each program, state and node there is exactly one outcome, with one state, one number of steps left and
/// one text after it. A call takes one step for each node that it enters, and never are more than 2,000 nodes open. An
/// expression gives in a run what it gives before any run, where each name has the value that it has then: as it has when
/// a run begins.
#[tactic(auto)]
pub fn law1()
    ensures one { (env : Environment) → OneRun env }
    ensures start { (t : Tests) (ds : List Decl) → BeginsSo t ds }
{}

/// One answer. Under each width limit up to 2^62, which is the greatest weight of a width, there are right tests (`tests`). Files, each entry
/// and each such limit have exactly one of these, a program that is well formed or one single fault (`one`), and where there is a file at all,
/// the fault's span lies within one of the files (`within`). What the rules evaluate before any run, of declarations whose names are apart, is
/// never stuck: it gives a value of its type, or has a dynamic fault (`evaluates`). So a fault of the code T04 that is met after reading, of the
/// program with the bodies that may be replaced or of that with those that replace them, is the
/// dynamic fault with which the evaluation of an initialiser or of the limit of a subprogram ends, with its code and at its place in that
/// expression; or it is that of a type without a first value, at the type of storage that has no initialiser; or it stands at a call or a
/// global `var` in an initialiser or a limit (`cause`). A fault that is met as files are read has one of the codes L01 to L05, M03, and S01 to
/// S03 (`reading_codes`); one that is met after reading has one of the codes T01 to T27, and a dynamic code only beside T04 (`codes`). A
/// command has one report: it is the same by all right tests of one width limit, and by whatever reads files as the grammar says (`report`).
#[tactic(auto)]
pub fn law2()
    ensures tests { (limit : ℕ) → limit ≤ heaviest → (t : Tests) × (IsRight t × (t.limit ≡ limit)) }
    ensures one { (limit : ℕ) → limit ≤ heaviest → (e : Entry) (files : List File) → OneAnswer limit e files }
    ensures within { (limit : ℕ) (e : Entry) (file : File) (files : List File) (f : Fault) → FaultOfFiles limit e (file ∷ files) f → LiesIn 0 (map (λ g. g.1) (file ∷ files)) f.span }
    ensures evaluates { (t : Tests) → IsRight t → (files : List File) (ds : List Decl) → AreJudged t.limit files ds → names_rule [] (all_declared ds) ≡ Ok tt → Evaluates t ds }
    ensures cause { (limit : ℕ) (e : Entry) (files : List File) (ds : List ReadDecl) (f : Fault) → ReadsAt limit files (Ok ds) → (p : ReadFault limit e ds f) → f.code ≡ T04 → HasCause p.tests (default_decls ds) f ⊎ HasCause p.tests (final_decls ds) f }
    ensures reading_codes { (limit : ℕ) (files : List File) (f : Fault) → ReadsAt limit files (Err f) → HasReadingCode f }
    ensures codes { (limit : ℕ) (e : Entry) (files : List File) (ds : List ReadDecl) (f : Fault) → ReadsAt limit files (Ok ds) → ReadFault limit e ds f → HasRuleCode f }
    ensures report { (t u : Tests) → IsRight t → IsRight u → t.limit ≡ u.limit → (limit : ℕ) (read other : Reader) → IsReadingAt limit read → IsReadingAt limit other → (command : Command) (held : Text → Text) → report_of t read command held ≡ report_of u other command held }
{}

/// What is read is written out, and bodies are replaced, before anything is judged. A program is accepted exactly if no body that replaces
/// another has a fault, and both programs that come of it are well formed, written out: the one with the bodies that may be replaced, and
/// the one with those that replace them (`accepted`). Else it has their first fault, in this order (`fault`). Its runs and calls are those of
/// the second, and the number of its declarations is that of all that were read (`reports`).
#[tactic(auto)]
pub fn written_law()
    ensures accepted { (limit : ℕ) (e : Entry) (ds : List ReadDecl) (a : Accepted) → ReadOk limit e ds a ↔ BothOk limit e ds a }
    ensures fault { (limit : ℕ) → limit ≤ heaviest → (e : Entry) (ds : List ReadDecl) (f : Fault) → ReadFault limit e ds f ↔ FirstFault limit e ds f }
    ensures reports { (t : Tests) (files : List File) (ds : List ReadDecl) → ReportsFinal t files ds }
{}

/// A program without accessors, and without bodies that replace others, is itself: both programs that come of it are it (`first`, `last`), so
/// what is said of it as it is read is what the rules say of it (`same`).
#[tactic(auto)]
pub fn plain_law()
    ensures first { (ds : List Decl) → default_decls (as_read ds) ≡ ds }
    ensures last { (ds : List Decl) → final_decls (as_read ds) ≡ ds }
    ensures same { (e : Entry) (ds : List Decl) (t : Tests) → read_verdict e (as_read ds) t ≡ verdict e ds t }
{}

/// Made names need no scope of their own. No token of a text is spelled like one, so no text names what they stand for (`unwritten`). Two of
/// them are the same only if they are the names of one value, or of the place, of statements that begin at the same byte (`apart`).
#[tactic(auto)]
pub fn made_law()
    ensures unwritten { (limit : ℕ) (file : ℕ) (text : List ℕ) (ts : List Token) → Tokens limit file text ts → NoneMade text ts }
    ensures apart { (at : Span) (bt : Span) → at.start < 2 ^ 64 → bt.start < 2 ^ 64 → MadeApart at bt }
{}

/// Soundness: no run of a well-formed program is stuck. Each state that it visits is sound, each node that it visits was judged, with
/// the program's own subprograms and in the body of the one that was called last, in a scope with which the state agrees, in which
/// each `let` counts as names that stand for themselves, and of which the three rules of `scopes_law` hold. Where it was judged to
/// have a type it gives values of that type, and where it is a width or a number that is written in a type, its integer. The frame of
/// each caller agrees with the scope of the call that it waits for, whose typed tree calls the subprogram that is active behind it.
/// Each expression with a type gives values of it from each state that agrees with its scope. The globals hold what was declared,
/// however a call ends. Typed trees do what the trees do that they were judged from. A width expression that is evaluated, wherever
/// it is written, gives the integer that it is as a width, or the fault D01, or D03 where a division isn't exact, or D12 or D13 as any
/// node may, and leaves the state as it was; so does an end of a constraint (`width_values`).
#[tactic(auto)]
pub fn law3()
    ensures { (limit : ℕ) (e : Entry) (files : List File) (ds : List Decl) (a : Accepted) → AreJudged limit files ds → (p : ProgramOk limit e ds a) → Soundness p.tests ds a × SameMeaning p.tests ds a }
{}

/// Law 5. The width limit decides nothing but what is too wide. Files that have a derivation have the same one under each wider limit up
/// to 2^62, with the same typed trees, signatures and names (`derivation`). Of declarations that are accepted, a call from outside that ends
/// neither with the fault D14 nor stuck is the same call under a wider limit: its outcome, its state, its text and the steps left (`run`);
/// so are the calls for words (`words`). So a command whose files are accepted, and whose run doesn't end with the fault D14, has the same
/// report (`report`). So has one that comes to no program: it is none, there are too many files, a file or its list of words is too long,
/// or that list has a fault. The reading of this program and its bits have one limit (`one_limit`).
#[tactic(auto)]
pub fn law5()
    ensures derivation { (l m : ℕ) → l ≤ m → m ≤ heaviest → (e : Entry) (files : List File) (a : Accepted) → FilesOk l e files a → FilesOk m e files a }
    ensures run { (t u : Tests) → IsRight t → IsRight u → t.limit ≤ u.limit → (e : Entry) (ds : List Decl) (a : Accepted) → verdict e ds t ≡ Ok a → (id : ℕ) (args : List Value) (globals : List Binding) (h : Meter) → FitsLimit (run_of (environment t ds) id args globals h) → run_of (environment u ds) id args globals h ≡ run_of (environment t ds) id args globals h }
    ensures words { (t u : Tests) → IsRight t → IsRight u → t.limit ≤ u.limit → (e : Entry) (ds : List Decl) (a : Accepted) → verdict e ds t ≡ Ok a → (entries : Entries) (words : List Word) (globals : List Binding) (h : Meter) → WordsFitLimit (run_words (environment t ds) entries words globals h) → run_words (environment u ds) entries words globals h ≡ run_words (environment t ds) entries words globals h }
    ensures report { (t u : Tests) → IsRight t → IsRight u → t.limit ≤ u.limit → (read other : Reader) → IsReadingAt t.limit read → IsReadingAt u.limit other → (command : Command) (held : Text → Text) → Fits t read command held → report_of u other command held ≡ report_of t read command held }
    ensures one_limit { max_width ≡ WIDTH_LIMIT }
{}

/// Kinds by names. Where types agree with what is declared, comparing declared names by the names and comparing kinds by structure is
/// the same (`kinds`). In each program that is read they do, be it accepted or refused. Each name of a well-formed program stands for one
/// type, and what is declared agrees (`declared`). Of declarations whose names are apart, so do the names in each turn in which one is
/// judged, those of the scope of all signatures, and the types of the signatures with the names that bodies begin with (`agree`). In a scope
/// whose names and results have well-formed types, expressions have such types, and so are the types that are written (`types`). Each
/// statement leaves such a scope, and the lists of a loop and of a catcher are judged in such a scope (`kept`).
#[tactic(auto, using(asl_rules::proofs::values::KindsByNames::kinds_by_names))]
pub fn kinds_law()
    ensures declared { (limit : ℕ) (e : Entry) (files : List File) (ds : List Decl) (a : Accepted) → AreJudged limit files ds → (p : ProgramOk limit e ds a) → WellDeclared (types_in a.names) }
    ensures agree { (t : Tests) → IsRight t → (files : List File) (ds : List Decl) → AreJudged t.limit files ds → names_rule [] (all_declared ds) ≡ Ok tt → DeclarationsAgree t ds }
    ensures types { (t : Tests) → IsRight t → (declared : List ℕ → Option Ty) → WellDeclared declared → (G : Scope) → ScopeFormed declared G → TypesFormed t declared G }
    ensures kept { (t : Tests) → IsRight t → (declared : List ℕ → Option Ty) → WellDeclared declared → KeepsFormed t declared }
    ensures kinds { (declared : List ℕ → Option Ty) → WellDeclared declared → (S T : Ty) → Shaped declared S → Shaped declared T → same_kind S T ≡ kind_eq (kind S) (kind T) }
{}

/// Three rules of scopes, on which soundness rests: no name is shadowed; a type mentions names of its scope alone; and a result mentions
/// parameters alone. Constants and global `let`s have values, so the names outside bodies mention none (`outside`). The rules hold of the
/// scope in which each body begins (`heads`), in programs that are refused too; each statement leaves a scope of which they hold
/// (`statements`), and they hold in loops (`indices`) and in catchers (`catchers`). In a scope of which they hold, the types of expressions,
/// and those that are written, mention names of the scope alone (`types`). What is judged of an expression or of a written type, its
/// type, its effect, its width or its fault, is the same wherever the names of the scope have their places, so no condition asks for a
/// slot, which typed trees have (`places`).
#[tactic(auto)]
pub fn scopes_law()
    ensures outside { (t : Tests) (ds : List Decl) → OutsideRules (names_of_program t ds) }
    ensures heads { (t : Tests) (ds : List Decl) (hs : List Head) → signatures_rule t (names_of_program t ds) (funcs_of ds) ≡ Ok hs → AllBegin (signatures hs) hs }
    ensures types { (t : Tests) (G : Scope) → KeepsRules G → TypesOwn t G }
    ensures statements { (t : Tests) (s : Stmt) (B : Body) (d : Done) → KeepsRules B.scope → found_stmt t s B ≡ Ok d → KeepsRules (record B.scope { names = d.names }) }
    ensures indices { (t : Tests) (i : Ident) (d : Direction) (a b : Expr) (B : Body) → KeepsRules B.scope → is_free i.text B.scope.names ≡ true → KeepsRules (with_index i (index_type t d a b B.scope) B).scope }
    ensures catchers { (t : Tests) (o : Option Ident) (name : List ℕ) (T : Ty) (B C : Body) → KeepsRules B.scope → type_of_name name B.scope.names ≡ Some T → with_caught o T B ≡ Ok C → KeepsRules C.scope }
    ensures places { (t : Tests) (G : Scope) (names : List Names) → StandSame G.names names → JudgesSame t G names }
{}

/// The order of declarations decides nothing. Those of types and of storage are judged in turns, one at a time, and what was judged at a turn,
/// well formed or faulty, is so at each later one, where it is judged so by the names that are visible then (`still`). After as many turns as
/// there are declarations none is left (`ends`). Then each that takes a turn, and uses well-formed ones alone, is what its rule says of it where
/// the names of the program are visible, and each other one waits (`settled`). If no declaration reaches itself, no other outcomes have this
/// property, in whichever order they are found (`only`), and if besides none is faulty, each that takes a turn is well formed (`well`).
#[tactic(auto)]
pub fn turns_law()
    ensures still { (t : Tests) (ds : List Decl) (n m : ℕ) → n ≤ m → StaysJudged t (names_after t m ds) ds (turns t n ds (all_waiting ds)) (turns t m ds (all_waiting ds)) }
    ensures ends { (t : Tests) (ds : List Decl) (n : ℕ) → length ds ≤ n → turns t n ds (all_waiting ds) ≡ final t ds }
    ensures settled { (t : Tests) (ds : List Decl) → Settled t ds (final t ds) }
    ensures only { (t : Tests) (ds : List Decl) (js : SoFar) → Settled t ds js → cycles_rule ds ds ≡ Ok tt → js ≡ final t ds }
    ensures well { (t : Tests) (ds : List Decl) → cycles_rule ds ds ≡ Ok tt → faults_rule (final t ds) ≡ Ok tt → AllWell ds (final t ds) }
{}

/// For all files that are read to declarations which are well formed, the names of the environment are what the declarations alone
/// describe (`described`): each declared type stands for the closed type that evaluating the written one gives, each label for its
/// value, and storage has its written type and begins with the value of its initialiser as a constant, or with the first value of
/// its type.
#[tactic(auto)]
pub fn environment_law()
    ensures described { (limit : ℕ) (e : Entry) (files : List File) (ds : List Decl) (a : Accepted) → AreJudged limit files ds → (p : ProgramOk limit e ds a) → Describes (environment p.tests ds) }
{}

/// No report is put together from a stuck run (`never_stuck`). Where files are read to declarations that are accepted with the entry
/// `main`, it is there, and with any number of steps its run, which `run` and `self` report, isn't stuck. For any words, where they are
/// accepted with the entries that these need, neither are the calls of `decode` and `decode16`, which `exec` reports.
#[tactic(auto)]
pub fn run_law()
    ensures never_stuck { (t : Tests) → IsRight t → (files : List File) (ds : List Decl) → AreJudged t.limit files ds → RunsWell t ds }
{}

/// Each node that a call visits, an expression or a statement, was judged, with the program's own subprograms and in the body of the one
/// that was called last, in a scope with which the state agrees. The typed tree of that judgement does, in the state without names and
/// types, what the node does in the state, whatever number of nodes may be open and whatever the meter is; and it has what the run finds
/// by names and by values: the subprogram that a call finds by the values of its arguments, with the values of its parameters; the place
/// of a field, and the bitfields that a view has under their names, where they are read and where they are stored; the place of a name
/// that is assigned; and the values that a construction gives to its fields (`same`).
#[tactic(auto)]
pub fn visit_law()
    ensures same { (limit : ℕ) (e : Entry) (files : List File) (ds : List Decl) (a : Accepted) → AreJudged limit files ds → (p : ProgramOk limit e ds a) → (id : ℕ) (args : List Value) (globals : List Binding) (h : Meter) → IsCall a id args globals → AllSame p.tests ds a (visits_of (environment p.tests ds) id args globals h) }
{}

/// The number of steps decides nothing but whether a run ends for want of steps. With k steps more a call from outside has the same
/// outcome, state and text, and k steps more left at its end, or without them it ended with the fault D13, no step left, and a text that
/// begins the text of the longer run (`more_steps`). So do the calls for words, one after another (`words`). It holds of each
/// environment, typed or not, and of each meter.
#[tactic(auto)]
pub fn budget_law()
    ensures more_steps { (env : Environment) (id : ℕ) (args : List Value) (globals : List Binding) (h : Meter) (k : ℕ) → SameWithMore k (run_of env id args globals (with_more k h)) (run_of env id args globals h) }
    ensures words { (env : Environment) (entries : Entries) (words : List Word) (globals : List Binding) (h : Meter) (k : ℕ) → SameWordsWithMore k (run_words env entries words globals (with_more k h)) (run_words env entries words globals h) }
{}

/// Widths over fractions, which no limit bounds. Where integers agree with what names stand for, an end of a constraint that names no
/// atom is the integer of its expression (`number`), and where what the names count as is within the limits, a width has the fraction of
/// its expression (`worth`). In a scope in which `let`s count as names that stand for themselves, the test whether two
/// widths are the same says yes exactly where they have one fraction at all such integers (`same`), and there are such integers whatever
/// the names that stand for themselves stand for (`integers`). The names outside
/// bodies are such a scope (`outside`). So are those at the head of a body (`heads`), behind each statement (`statements`), in loops
/// (`indices`) and in catchers (`catchers`): what stood there before stands for the same. And behind a `let` of one integer, where its
/// initialiser is a width, the name stands for the fraction of its initialiser (`statements`).
#[tactic(auto)]
pub fn widths_law()
    ensures worth { (t : Tests) (e : Expr) (G : Scope) (w : Width) (a : Integers) → CountsWithin G.names → width t e G ≡ Ok w → Obeys G.names a → HasWorth e G.names a w.poly }
    ensures number { (t : Tests) (e : Expr) (G : Scope) (n : Number) (a : Integers) → (found t e).number G ≡ Ok n → Obeys G.names a → HasWhole e G.names a n.number }
    ensures same { (t : Tests) → IsRight t → (e f : Expr) (G : Scope) (v w : Width) → WellCounted G.names → width t e G ≡ Ok v → width t f G ≡ Ok w → (t.same v.poly w.poly ≡ true) ↔ SameWorth G.names e f }
    ensures integers { (names : List Names) → WellCounted names → (b : ℕ → ℤ) → HasIntegers names b }
    ensures outside { (t : Tests) (ds : List Decl) → WellCounted (names_of_program t ds) }
    ensures heads { (t : Tests) (ds : List Decl) (f : Func) (head : Head) → signature_rule t (names_of_program t ds) f ≡ Ok head → StandsAsBefore (names_of_program t ds) head.names }
    ensures statements { (t : Tests) (s : Stmt) (B : Body) (d : Done) → WellCounted B.scope.names → found_stmt t s B ≡ Ok d → SaysSo t s B d }
    ensures indices { (i : Ident) (T : Ty) (B : Body) → WellCounted B.scope.names → is_free i.text B.scope.names ≡ true → StandsAsBefore B.scope.names (with_index i T B).scope.names }
    ensures catchers { (o : Option Ident) (T : Ty) (B C : Body) → WellCounted B.scope.names → with_caught o T B ≡ Ok C → StandsAsBefore B.scope.names C.scope.names }
{}
