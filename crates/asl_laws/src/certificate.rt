//! The laws of typing certificates, each as the contract of a function without parameters.
#![tactic(auto)]

ghost use Rattle.std.specs.Prelude.{◌≡◌, ℕ, true, List, length, Ok, Err};
ghost use Rattle.asl_rules.specs.expressions.Exprs.{typed};
ghost use Rattle.asl_rules.specs.declarations.Scopes.{Scope, Body, Signature};
ghost use Rattle.asl_rules.specs.declared.entry.Entry.TheVariants as entry;
ghost use Rattle.asl_rules.specs.declarations.Programs.{Head, verdict};
ghost use Rattle.asl_syn.specs.declared.code.Fault.{Fault};
ghost use Rattle.asl_rules.specs.Tests.{Tests, IsRight};
ghost use Rattle.asl_rules.specs.report.Texts.{Text};
ghost use Rattle.asl_rules.specs.expressions.Typing.{Typed};
ghost use Rattle.asl_syn.specs.declared.tree.Decl.{Decl};
ghost use Rattle.asl_syn.specs.declared.tree.Expr.{Expr};
ghost use Rattle.asl_syn.specs.declared.tree.Stmt.{Stmt};
ghost use Rattle.asl_laws.specs.certificates.Lines.{expr_sites, site_lines};
ghost use Rattle.asl_laws.specs.certificates.Certificates.{Stage, AllGo, StagesLaw, CertificateLaw, CertificateOk, OneCertificate, AllWell, Mistake, no, heads_of, verified, certificate};
ghost use Rattle.asl_laws.specs.certificates.Format.{is_line};
ghost use Rattle.asl_laws.specs.certificates.Mistakes.{AboutLaw, MistakeLaw};
ghost use Rattle.asl_laws.specs.certificates.Spellings.{LineSpelled, WidthLaw};
ghost use Rattle.asl_laws.specs.certificates.TreeLines.{expr_lines, OnceLaw};
ghost use Rattle.asl_laws.specs.certificates.Verdicts.{Want, AllFeedFree, feeds, fed, Agrees, VerdictsLaw, WantedLaw, FirstLine};
ghost use Rattle.asl_laws.specs.certificates.Walks.{StmtWalkLaw, ListWalkLaw, BodyWalkLaw};

/// Yes comes exactly where programs are well formed with no entry and the bytes are their certificate, whoever wrote them (`yes`, and
/// `law` for the tests at hand). Certificate and verdict don't depend on the tests (`one`). Where the programs are well formed and there is
/// a no at a line, bytes and certificate agree up to the line before (`agrees`). A fault that is refused is that of the program
/// (`refused`). Whatever is asked in stages, yes comes exactly of the certificate of stages that go well (`stages`), and each other verdict
/// exactly where its statement holds (`verdicts`).
#[tactic(auto)]
pub fn certificate_law()
    ensures yes { (t : Tests) → IsRight t → (programs : List (List Decl)) (bytes : Text) (k : ℕ) → CertificateOk t programs bytes k }
    ensures law { (t : Tests) (programs : List (List Decl)) (bytes : Text) (k : ℕ) → CertificateLaw t programs bytes k }
    ensures one { (t u : Tests) → IsRight t → IsRight u → t.limit ≡ u.limit → (programs : List (List Decl)) (bytes : Text) → OneCertificate t u programs bytes }
    ensures agrees { (t : Tests) (programs : List (List Decl)) (bytes : Text) (n : ℕ) (m : Mistake) → AllWell t programs → verified t programs bytes ≡ Err (no n m) → Agrees (certificate t programs) bytes n }
    ensures refused { (t : Tests) (ds : List Decl) (f : Fault) → heads_of t ds ≡ Err f → verdict entry.None ds t ≡ Err f }
    ensures stages { (ss : List Stage) (bytes : Text) (k : ℕ) → StagesLaw ss bytes k }
    ensures verdicts { (ss : List Stage) (bytes : Text) → VerdictsLaw ss bytes }
{}

/// Where all stages go well, the lines that have to come are those of the certificate (`all`). A text without line feeds, with its own,
/// begins bytes exactly where it is what their first line says (`first`), and so many lines have as many line feeds (`number`). A text is
/// recognised as a line of the format exactly where it is put together as the grammar of lines says (`spelled`, `recognised`), and so are
/// widths (`width`); which of V01, V02 and V03 a line has follows from that and from what it is about (`mistake`, `about`).
#[tactic(auto)]
pub fn lines_law()
    ensures all { (ss : List Stage) → AllGo ss → WantedLaw ss }
    ensures first { (text bytes : Text) → FirstLine text bytes }
    ensures number { (ws : List Want) → AllFeedFree ws → feeds (fed ws) ≡ length ws }
    ensures spelled { (t : Text) → is_line t ≡ true → LineSpelled t }
    ensures width { (t : Text) → WidthLaw t }
    ensures mistake { (t place : Text) → MistakeLaw t place }
    ensures about { (t : Text) → AboutLaw t }
    ensures recognised { (t : Text) → LineSpelled t → is_line t ≡ true }
{}

/// The lines of an expression that has a type are those that are read off its typed tree (`read`), so it is judged once (`once`). The lines
/// of a statement, of a list and of a body are those of a walk that goes through each list once, and asks the rule of a statement behind
/// its lists, with what these gave (`statement`, `list`, `body`).
#[tactic(auto)]
pub fn walk_law()
    ensures read { (t : Tests) (e : Expr) (G : Scope) (S : Typed) → typed t e G ≡ Ok S → (site_lines t (expr_sites e) G).lines ≡ expr_lines t e S.tree G }
    ensures once { (t : Tests) (e : Expr) (G : Scope) → OnceLaw t e G }
    ensures statement { (t : Tests) (s : Stmt) (B : Body) → StmtWalkLaw t s B }
    ensures list { (t : Tests) (ss : List Stmt) (B : Body) → ListWalkLaw t ss B }
    ensures body { (t : Tests) (subs : List Signature) (h : Head) → BodyWalkLaw t subs h }
{}
