// The lines of a script, read one indentation at a time: the lines of a suite are rows, each with the suite under it, and the
// lines of one statement are put together as they come.
ghost use Rattle.std.specs.Prelude.{◌≡◌, ◌+◌, ◌<◌, ◌≤◌, ◌==◌, ◌||◌, ◌&&◌, ◌++◌, ℕ, List, [], not, map, option_map, is_none, true, false, IfOk, IfErr};
ghost use Rattle.py_tree.specs.Tree.{StmtTree, end_suite, more_suite};
ghost use Rattle.py_tree.specs.Erasure.{expr_of, stmt_of, form_of as form_tree, suite_of};
ghost use Rattle.py_grammar.specs.LineReader.{Head, head_tokens};
ghost use Rattle.py_grammar.specs.Written.{Simple};
ghost use Rattle.py_grammar.specs.StatementTokens.{simple_tokens};
ghost use Rattle.py_grammar.specs.StatementTrees.{simple_form};
ghost use Rattle.py_grammar.specs.WellPlaced.{are_alone as alone, alone_kind};
ghost use Rattle.py_parser.specs.declared.fault.Halt.TheVariants.{Memory};
ghost use Rattle.py_grammar.specs.ParsedSimple.{around_of};
ghost use Rattle.py_grammar.specs.ParsedHead.{IsWhat, IsBehind, IsThere, behind_in, lacks_handler};
ghost use Rattle.py_parser.specs.Rows.{start, Level, counted, is_global, is_def as def_begins, is_stmt, opens as head_opens, after, head_around, head_given, last_after, lets_declare};
ghost use Rattle.py_parser.specs.RowForms.{begun, form_begun, suite_list, grown as grown_trees, below_tree, declared, with_elif as with_elif_tree, with_else as with_else_tree, with_handler as with_handler_tree, with_part as with_part_tree, longer};
ghost use Rattle.py_parser.specs.Faults.{first_place, last_place, is_stmt_kind};
ghost use Rattle.py_parser.specs.ParsedBlocks.{limit_at, AreBelow, level_of, level_at, is_here, halt_of, MarksFirst, BeyondSuites, IsUnderOf, IsClosed, NotClosed, IsNoHandler, IsShallow, trees_of, IsHead, LineRead, LineStopped, RowsRead, RowRead, RowsStopped, UnderRead, UnderStopped};

use crate::fault::Halt;
use prov_base::{Name, Pos, Span};
use py_expressions::words::{ELIF, ELSE, EXCEPT, GLOBAL, PASS};
use py_expressions::{Fault, Stop};
use py_grammar::{Around, Behind, Context, Given, Last, Limit, LineHead, What, read_line_head};
use py_lines::{Line, Token, TokenKind};
use py_tree::{Bound, Branches, Expr, Form, Globals, Handlers, Stmt, Suite};
use std::alloc::{AllocError, Global};

/// The greatest number of statements of a script.
const STATEMENTS: u32 = 20000;

/// How many suites may lie around a statement.
const SUITES: u32 = 50;

/// Where the lines of a suite stand.
#[derive(Clone, Copy)]
pub(crate) struct Place {
    pub indent: u32,
    /// How many suites lie around.
    pub depth: u32,
    pub around: Around,
    /// They are the suite of a `def`.
    pub of_def: bool,
}

/// The lines of a suite that are read so far.
#[derive(Drop)]
pub(crate) struct Built {
    pub list: Vec<Stmt>,
    /// The names that its lines declare global.
    pub globals: Vec<Name>,
    /// The end of its last line.
    pub to: u32,
    /// What the last of its lines began.
    pub last: Last,
    /// A `global` line may stand behind them.
    pub may_declare: bool,
    pub has_stmt: bool,
}

/// The lines that are not read yet.
#[derive(Drop)]
pub(crate) struct Blocks<'a> {
    pub rest: &'a [Line],
    /// The last token that was read.
    pub before: Pos,
    /// How many statements have begun.
    pub count: u32,
    /// The indentations around the lines that are read, the outermost first.
    pub columns: Vec<u32>,
}

impl<'a> Blocks<'a> {
    /// The lines of a suite. `given` are the parameters of the function whose suite it is.
    #[cycle(blocks)]
    pub(crate) fn rows(
        &mut self,
        alloc: Global,
        place: Place,
        given: &Given<'_>,
    ) -> Result<Built, Halt>
        requires here { is_here place.indent self.old.rest.now ≡ true }
        requires deep { place.depth ≤ 50 }
        requires few { self.old.count ≤ 20000 }
        requires columns { AreBelow place.indent self.old.columns.items }
        ensures found { IfOk result (λ built. RowsRead (level_of place given.now) self.old.count self.old.before self.old.rest.now built self.new.count self.new.before self.new.rest.now) }
        ensures refused { IsShallow (level_of place given.now) → IfErr result (RowsStopped self.old.columns.items (level_of place given.now) self.old.count self.old.before self.old.rest.now) }
        ensures columns { IfOk result (λ _. self.new.columns.items ≡ self.old.columns.items) }
    {
        let mut built = Built::new(alloc, place);
        while self.is_here(place.indent) {
            built = self.row(alloc, place, given, built)?;
        }
        self.close(place, &built)?;
        Ok(built)
    }

    /// The next line, which stands at this indentation, with the suite under it.
    #[cycle(blocks)]
    fn row(
        &mut self,
        alloc: Global,
        place: Place,
        given: &Given<'_>,
        built: Built,
    ) -> Result<Built, Halt>
        requires here { is_here place.indent self.old.rest.now ≡ true }
        requires deep { place.depth ≤ 50 }
        requires few { self.old.count ≤ 20000 }
        requires declares { built.may_declare ≡ true → place.of_def ≡ true }
        requires columns { AreBelow place.indent self.old.columns.items }
        ensures found { IfOk result (λ more. RowRead (level_at place given.now built) self.old.count self.old.before self.old.rest.now built more (level_at place given.now more) self.new.count self.new.before self.new.rest.now) }
        ensures refused { IsShallow (level_at place given.now built) → IfErr result (RowsStopped self.old.columns.items (level_at place given.now built) self.old.count self.old.before self.old.rest.now) }
        ensures columns { IfOk result (λ _. self.new.columns.items ≡ self.old.columns.items) }
    {
        let Some((line, rest)) = self.rest.split_first() else {
            return Err(Halt::BadIndent(self.before));
        };
        let no = self.count;
        let LineHead { what, behind } = self.line(alloc, line, rest, place, given, &built)?;
        self.rest = rest;
        self.before = last_of(line.tokens.as_slice(), self.before);
        let under = self.under(alloc, line, behind, &what, place)?;
        built.with(alloc, line, no, what, under)
    }

    /// What the tokens of a line begin, behind which these lines stand.
    fn line(
        &mut self,
        alloc: Global,
        line: &Line,
        lines: &[Line],
        place: Place,
        given: &Given<'_>,
        built: &Built,
    ) -> Result<LineHead, Halt>
        requires few { self.old.count ≤ 20000 }
        requires declares { built.now.may_declare ≡ true → place.of_def ≡ true }
        ensures found { IfOk result (λ head. LineRead (level_at place given.now built.now) self.old.count line.now head self.new.count) }
        ensures refused { IfErr result (LineStopped (level_at place given.now built.now) self.old.count self.old.before line.now lines.now) }
        ensures kept { self.new.rest.now ≡ self.old.rest.now }
        ensures before { self.new.before ≡ self.old.before }
        ensures columns { self.new.columns ≡ self.old.columns }
    {
        let Some(first) = line.tokens.as_slice().first() else {
            return Err(Halt::AtEnd(lines.len(), self.before));
        };
        let begins = begins_stmt(&first.kind);
        let finished = is_finished(built.last);
        if begins && finished && STATEMENTS <= self.count {
            return Err(Halt::TooMany(first.at));
        }
        let count = self.count + u32::from(begins);
        let limit = limit_of(count, place.depth);
        let context = Context {
            around: place.around,
            last: built.last,
            may_declare: built.may_declare,
        };
        match read_line_head(alloc, line.tokens.as_slice(), context, given, limit) {
            Ok(head) => {
                self.count = count;
                Ok(head)
            }
            Err(Stop::Here(fault)) => Err(halted(lines.len(), fault)),
            Err(Stop::End) => Err(Halt::AtEnd(
                lines.len(),
                last_of(line.tokens.as_slice(), self.before),
            )),
        }
    }

    /// What stands under a line: the statement behind its `:`, or the suite on the lines below, or nothing.
    #[cycle(blocks)]
    fn under(
        &mut self,
        alloc: Global,
        line: &Line,
        behind: Option<Behind>,
        what: &What,
        place: Place,
    ) -> Result<Built, Halt>
        requires deep { place.depth ≤ 50 }
        requires few { self.old.count ≤ 20000 }
        requires columns { AreBelow place.indent self.old.columns.items }
        ensures found { (m : Level) (n : ℕ) (h : Head) → IsUnderOf place self.old.count m n h → IsHead what.now line.now h → IsBehind behind (behind_in h)
            → IfOk result (λ built. UnderRead m n h line.now.span.to self.old.before self.old.rest.now built self.new.count self.new.before self.new.rest.now) }
        ensures refused { (m : Level) (n : ℕ) (h : Head) → IsShallow m → IsUnderOf place self.old.count m n h → IsHead what.now line.now h → IsBehind behind (behind_in h)
            → IfErr result (UnderStopped self.old.columns.items m (n + counted h) h self.old.before self.old.rest.now) }
        ensures columns { IfOk result (λ _. self.new.columns.items ≡ self.old.columns.items) }
    {
        match behind {
            Some(behind) => {
                let no = self.count;
                self.count += 1;
                Ok(one_line(alloc, no, behind, line.span.to)?)
            }
            None if opens(what) => self.suite(alloc, what, place),
            None => Ok(nothing(alloc, line.span.to)),
        }
    }

    /// The suite on the lines below one that begins this.
    #[cycle(blocks)]
    fn suite(&mut self, alloc: Global, what: &What, place: Place) -> Result<Built, Halt>
        requires deep { place.depth ≤ 50 }
        requires few { self.old.count ≤ 20000 }
        requires columns { AreBelow place.indent self.old.columns.items }
        ensures found { (m : Level) (n : ℕ) (h : Head) → IsUnderOf place self.old.count m n h → IsWhat what.now h → head_opens h ≡ true
            → IfOk result (λ built. (to : ℕ) → UnderRead m n h to self.old.before self.old.rest.now built self.new.count self.new.before self.new.rest.now) }
        ensures refused { (m : Level) (n : ℕ) (h : Head) → IsShallow m → IsUnderOf place self.old.count m n h → IsWhat what.now h → head_opens h ≡ true
            → IfErr result (UnderStopped self.old.columns.items m (n + counted h) h self.old.before self.old.rest.now) }
        ensures columns { IfOk result (λ _. self.new.columns.items ≡ self.old.columns.items) }
    {
        let Some((next, lines)) = self.rest.split_first() else {
            return Err(Halt::BadIndent(self.before));
        };
        if next.indent <= place.indent {
            return Err(Halt::BadIndent(self.before));
        }
        if SUITES <= place.depth {
            return Err(beyond_suites(next, lines, self.count, self.before));
        }
        let inner = Place {
            indent: next.indent,
            depth: place.depth + 1,
            around: inner_around(what, place.around),
            of_def: is_def(what),
        };
        self.columns.push(place.indent)?;
        let given = Given::of(alloc, given_of(what))?;
        let built = self.rows(alloc, inner, &given)?;
        self.columns.pop();
        Ok(built)
    }

    /// The next line stands at this indentation.
    fn is_here(&self, indent: u32) -> bool
        ensures { result ≡ is_here indent self.now.rest.now }
    {
        match self.rest.first() {
            Some(line) => line.indent == indent,
            None => false,
        }
    }

    /// The lines of a suite end here: no line follows that is indented more than the lines around, no handler is missing, and
    /// there is a statement.
    fn close(&self, place: Place, built: &Built) -> Result<(), Halt>
        requires ended { is_here place.indent self.now.rest.now ≡ false }
        requires columns { AreBelow place.indent self.now.columns.items }
        ensures found { IfOk result (λ _. IsClosed place built.now self.now.rest.now) }
        ensures refused { IfErr result (NotClosed self.now.columns.items place built.now self.now.before self.now.rest.now) }
    {
        let lacks_handler = built.last == Last::Try;
        let Some((line, lines)) = self.rest.split_first() else {
            if lacks_handler {
                return Err(Halt::NoLine(self.before));
            }
            if !built.has_stmt {
                return Err(Halt::BadIndent(self.before));
            }
            return Ok(());
        };
        let at = first_of(line.tokens.as_slice(), self.before);
        if place.indent < line.indent {
            return Err(Halt::BadIndent(at));
        }
        if lacks_handler {
            return Err(self.no_handler(line, lines));
        }
        if !built.has_stmt {
            return Err(Halt::BadIndent(self.before));
        }
        Ok(())
    }

    /// That a line stands where a handler has to, in front of these lines.
    fn no_handler(&self, line: &Line, lines: &[Line]) -> Halt
        ensures { IsNoHandler self.now.columns.items line.now lines.now self.now.before result }
    {
        let tokens = line.tokens.as_slice();
        if self.columns.contains(&line.indent) {
            at_first(tokens, lines, self.before)
        } else {
            Halt::BadIndent(first_of(tokens, self.before))
        }
    }
}

/// At the first of these tokens, or at the end of their line where there is none. These lines stand behind it.
fn at_first(tokens: &[Token], lines: &[Line], before: Pos) -> Halt
    ensures { MarksFirst tokens.now lines.now before result }
{
    match tokens.split_first() {
        Some((_, behind)) => Halt::AtToken(lines.len(), behind.len()),
        None => Halt::AtEnd(lines.len(), before),
    }
}

/// Why no line may stand in a suite that lies too deep: so many statements have begun, and `lines` stand behind it. Only a `def` has a
/// suite that a `global` line begins, and none lies so deep.
fn beyond_suites(line: &Line, lines: &[Line], count: u32, before: Pos) -> Halt
    ensures { BeyondSuites count before line.now lines.now result }
{
    let Some((first, behind)) = line.tokens.as_slice().split_first() else {
        return Halt::TooDeep(before);
    };
    if !begins_stmt(&first.kind) {
        return Halt::AtToken(lines.len(), behind.len());
    }
    if STATEMENTS <= count {
        return Halt::TooMany(first.at);
    }
    Halt::TooDeep(first.at)
}

/// Where the lines stop that stop at this on a line, behind which so many lines stand.
fn halted(lines_left: usize, fault: Fault) -> Halt
    ensures { result ≡ halt_of lines_left fault }
{
    match fault {
        Fault::Unexpected(left) => Halt::AtToken(lines_left, left),
        Fault::TooDeep(at) => Halt::TooDeep(at),
        Fault::TooMany(at) => Halt::TooMany(at),
        Fault::Memory => Halt::Memory,
    }
}

impl Place {
    /// Directly in a script.
    pub(crate) fn module() -> Place
        ensures { level_of result [] ≡ start }
    {
        Place {
            indent: 0,
            depth: 0,
            around: Around::module(),
            of_def: false,
        }
    }
}

impl Built {
    /// Nothing is read yet.
    fn new(alloc: Global, place: Place) -> Built
        ensures trees { trees_of result ≡ [] }
        ensures globals { result.globals.items ≡ [] }
        ensures to { result.to ≡ 0 }
        ensures level { (given : List (List ℕ)) → level_at place given result ≡ level_of place given }
    {
        Built {
            list: Vec::new(alloc),
            globals: Vec::new(alloc),
            to: 0,
            last: Last::Nothing,
            may_declare: place.of_def,
            has_stmt: false,
        }
    }

    /// With a line that begins this, and what stands under it.
    fn with(
        self,
        alloc: Global,
        line: &Line,
        no: u32,
        what: What,
        under: Built,
    ) -> Result<Built, Halt>
        ensures trees { (h : Head) → IsHead what line.now h → IfOk result (λ more. trees_of more ≡ grown_trees no h (suite_list (trees_of under)) under.globals.items under.to (trees_of self)) }
        ensures globals { (h : Head) → IsHead what line.now h → IfOk result (λ more. more.globals.items ≡ self.globals.items ++ declared h) }
        ensures to { IfOk result (λ more. more.to ≡ under.to) }
        ensures last { (h : Head) → IsHead what line.now h → IfOk result (λ more. more.last ≡ last_after h) }
        ensures declares { (h : Head) → IsHead what line.now h → IfOk result (λ more. more.may_declare ≡ (self.may_declare && lets_declare h)) }
        ensures stmt { (h : Head) → IsHead what line.now h → IfOk result (λ more. more.has_stmt ≡ (self.has_stmt || not (is_global h))) }
        ensures memory { IfErr result (λ fault. fault ≡ Memory) }
    {
        let last = last_of_line(&what);
        let follows = may_follow(&what, line.tokens.as_slice());
        let to = under.to;
        let may_declare = self.may_declare && follows;
        let more = self.extended(alloc, line, no, what, under)?;
        Ok(Built {
            list: more.list,
            globals: more.globals,
            to,
            last,
            may_declare,
            has_stmt: more.has_stmt,
        })
    }

    /// With a statement, a part of one or names that are global, and what else is known as it was.
    fn extended(
        self,
        alloc: Global,
        line: &Line,
        no: u32,
        what: What,
        under: Built,
    ) -> Result<Built, AllocError>
        ensures trees { (h : Head) → IsHead what line.now h → IfOk result (λ more. trees_of more ≡ grown_trees no h (suite_list (trees_of under)) under.globals.items under.to (trees_of self)) }
        ensures globals { (h : Head) → IsHead what line.now h → IfOk result (λ more. more.globals.items ≡ self.globals.items ++ declared h) }
        ensures stmt { (h : Head) → IsHead what line.now h → IfOk result (λ more. more.has_stmt ≡ (self.has_stmt || not (is_global h))) }
    {
        let Built {
            list,
            globals,
            to,
            last,
            may_declare,
            has_stmt,
        } = self;
        match what {
            What::Global(names) => {
                let globals = joined(globals, names)?;
                Ok(Built {
                    list,
                    globals,
                    to,
                    last,
                    may_declare,
                    has_stmt,
                })
            }
            what => {
                let list = grown(alloc, list, line, no, what, under)?;
                Ok(Built {
                    list,
                    globals,
                    to,
                    last,
                    may_declare,
                    has_stmt: true,
                })
            }
        }
    }
}

/// The names behind others.
fn joined(mut globals: Vec<Name>, names: Globals) -> Result<Vec<Name>, AllocError>
    ensures { IfOk result (λ all. all.items ≡ globals.items ++ names.list.items) }
{
    for name in names.list {
        globals.push(name)?;
    }
    Ok(globals)
}

/// The statements with a line that begins this: one statement more, or a part of the last one.
fn grown(
    alloc: Global,
    mut list: Vec<Stmt>,
    line: &Line,
    no: u32,
    what: What,
    under: Built,
) -> Result<Vec<Stmt>, AllocError>
    ensures { (h : Head) → IsHead what line.now h → is_global h ≡ false → IfOk result (λ more. map stmt_of more.items ≡ grown_trees no h (suite_list (trees_of under)) under.globals.items under.to (map stmt_of list.items)) }
{
    if is_part(&what) {
        let Some(stmt) = list.pop() else {
            return Ok(list);
        };
        list.push(with_part(alloc, stmt, what, under)?)?;
        return Ok(list);
    }
    let to = under.to;
    let form = form_of(alloc, what, under)?;
    list.push(statement(alloc, line, no, to, form)?)?;
    Ok(list)
}

/// A statement that begins with a line and ends here.
fn statement(alloc: Global, line: &Line, no: u32, to: u32, form: Form) -> Result<Stmt, AllocError>
    ensures { IfOk result (λ stmt. stmt_of stmt ≡ begun no line.now.tokens to (form_tree form)) }
{
    let form = Box::new(alloc, form)?;
    let (pos, from) = match line.tokens.as_slice().first() {
        Some(first) => (first.at, first.span.from),
        None => (Pos { line: 0, col: 0 }, 0),
    };
    let span = Span { from, to };
    Ok(Stmt {
        no,
        pos,
        span,
        form,
    })
}

/// A statement with one part more: an `elif`, an `else` or a handler.
fn with_part(alloc: Global, stmt: Stmt, what: What, under: Built) -> Result<Stmt, AllocError>
    ensures { (h : Head) → IsWhat what h → IfOk result (λ more. stmt_of more ≡ longer (with_part_tree h (suite_list (trees_of under))) under.to (stmt_of stmt)) }
{
    let Stmt {
        no,
        pos,
        span,
        form,
    } = stmt;
    let Built { list, to, .. } = under;
    let span = Span {
        from: span.from,
        to,
    };
    let changed = form_with_part(Box::into_inner(form), what, Suite { list })?;
    let form = Box::new(alloc, changed)?;
    Ok(Stmt {
        no,
        pos,
        span,
        form,
    })
}

/// A form with one part more: an `elif`, an `else` or a handler.
fn form_with_part(form: Form, what: What, suite: Suite) -> Result<Form, AllocError>
    ensures { (h : Head) → IsWhat what h → IfOk result (λ more. form_tree more ≡ with_part_tree h (suite_of suite) (form_tree form)) }
{
    match what {
        What::Elif(test) => {
            let form = with_elif(form, test, suite)?;
            Ok(form)
        }
        What::Else => Ok(with_else(form, suite)),
        What::Except(class, bound) => {
            let form = with_handler(form, class, bound, suite)?;
            Ok(form)
        }
        _ => Ok(form),
    }
}

/// An `if` with one branch more.
fn with_elif(form: Form, test: Expr, suite: Suite) -> Result<Form, AllocError>
    ensures { IfOk result (λ more. form_tree more ≡ with_elif_tree (expr_of test) (suite_of suite) (form_tree form)) }
{
    match form {
        Form::If(mut branches, orelse) => {
            branches.list.push((test, suite))?;
            Ok(Form::If(branches, orelse))
        }
        other => Ok(other),
    }
}

/// An `if` with its `else`.
fn with_else(form: Form, suite: Suite) -> Form
    ensures { form_tree result ≡ with_else_tree (suite_of suite) (form_tree form) }
{
    match form {
        Form::If(branches, _) => Form::If(branches, Some(suite)),
        other => other,
    }
}

/// A `try` with one handler more.
fn with_handler(
    form: Form,
    class: Option<Expr>,
    bound: Option<Bound>,
    suite: Suite,
) -> Result<Form, AllocError>
    ensures { IfOk result (λ more. form_tree more ≡ with_handler_tree (option_map expr_of class) bound (suite_of suite) (form_tree form)) }
{
    match form {
        Form::Try(body, mut handlers) => {
            handlers.list.push((class, bound, suite))?;
            Ok(Form::Try(body, handlers))
        }
        other => Ok(other),
    }
}

/// The statement that a line begins, with what stands under it.
fn form_of(alloc: Global, what: What, under: Built) -> Result<Form, AllocError>
    ensures { (h : Head) → IsWhat what h → is_stmt h ≡ true → IfOk result (λ form. form_tree form ≡ form_begun h (suite_list (trees_of under)) under.globals.items) }
{
    let suite = Suite { list: under.list };
    match what {
        What::Simple(form) => Ok(form),
        What::If(test) => {
            let mut list = Vec::new(alloc);
            list.push((test, suite))?;
            Ok(Form::If(Branches { list }, None))
        }
        What::While(test) => Ok(Form::While(test, suite)),
        What::For(target, items) => Ok(Form::For(target, items, suite)),
        What::Try => Ok(Form::Try(
            suite,
            Handlers {
                list: Vec::new(alloc),
            },
        )),
        What::With(value, bound) => Ok(Form::With(value, bound, suite)),
        What::Def(name, params) => {
            let globals = Globals {
                list: under.globals,
            };
            Ok(Form::Def(name, params, globals, suite))
        }
        What::Class(name, base) => Ok(Form::Class(name, base, suite)),
        _ => Ok(Form::Pass),
    }
}

/// The statement behind a `:`, which ends here.
fn one_line(alloc: Global, no: u32, behind: Behind, to: u32) -> Result<Built, AllocError>
    ensures tree { (s : Simple) → IsThere behind s → IfOk result (λ built. suite_list (trees_of built) ≡ more_suite (begun no (simple_tokens s) to (simple_form s)) end_suite) }
    ensures globals { IfOk result (λ built. built.globals.items ≡ []) }
    ensures to { IfOk result (λ built. built.to ≡ to) }
{
    let span = Span {
        from: behind.from,
        to,
    };
    let form = Box::new(alloc, behind.form)?;
    let mut list = Vec::new(alloc);
    list.push(Stmt {
        no,
        pos: behind.at,
        span,
        form,
    })?;
    Ok(Built {
        list,
        globals: Vec::new(alloc),
        to,
        last: Last::Nothing,
        may_declare: false,
        has_stmt: true,
    })
}

/// Nothing stands under a line that ends here.
fn nothing(alloc: Global, to: u32) -> Built
    ensures trees { trees_of result ≡ [] }
    ensures globals { result.globals.items ≡ [] }
    ensures to { result.to ≡ to }
{
    Built {
        list: Vec::new(alloc),
        globals: Vec::new(alloc),
        to,
        last: Last::Nothing,
        may_declare: false,
        has_stmt: false,
    }
}

/// The limit that a statement behind the `:` would pass, behind so many statements and in so many suites.
fn limit_of(count: u32, depth: u32) -> Option<Limit>
    ensures { result ≡ limit_at count depth }
{
    if STATEMENTS <= count {
        Some(Limit::Number)
    } else if SUITES <= depth {
        Some(Limit::Depth)
    } else {
        None
    }
}

/// No handler is missing behind what the line before began.
fn is_finished(last: Last) -> bool
    ensures { result ≡ not (lacks_handler last) }
{
    last != Last::Try
}

/// A statement begins with such a token, and no part of one or `global` line.
fn begins_stmt(kind: &TokenKind) -> bool
    ensures { result ≡ is_stmt_kind kind.now }
{
    !matches!(kind, TokenKind::Keyword(ELIF | ELSE | EXCEPT | GLOBAL))
}

/// The line begins a part of a statement.
fn is_part(what: &What) -> bool
    ensures { (h : Head) → IsWhat what.now h → result ≡ (not (is_stmt h) && not (is_global h)) }
{
    matches!(what, What::Elif(_) | What::Else | What::Except(_, _))
}

/// A suite stands on the lines below a line that begins this and ends behind its `:`.
fn opens(what: &What) -> bool
    ensures { (h : Head) → IsWhat what.now h → is_none (behind_in h) ≡ true → result ≡ head_opens h }
{
    !matches!(what, What::Simple(_) | What::Global(_))
}

/// The line begins a `def`.
fn is_def(what: &What) -> bool
    ensures { (h : Head) → IsWhat what.now h → result ≡ def_begins h }
{
    matches!(what, What::Def(_, _))
}

/// Where the suite of what the line begins stands.
fn inner_around(what: &What, around: Around) -> Around
    ensures { (h : Head) → IsWhat what.now h → around_of result ≡ head_around (around_of around) h }
{
    match what {
        What::While(_) | What::For(_, _) => around.in_loop_suite(),
        What::Except(_, _) => around.in_handler_suite(),
        What::Def(_, _) => Around::in_def_suite(),
        What::Class(_, _) => Around::in_class_suite(),
        _ => around.in_suite(),
    }
}

/// The parameters of a `def`.
fn given_of(what: &What) -> &[Name]
    ensures { (h : Head) → IsWhat what.now h → result.now ≡ head_given h }
{
    match what {
        What::Def(_, params) => &params.list,
        _ => &[],
    }
}

/// What may follow what the line begins.
fn last_of_line(what: &What) -> Last
    ensures { (h : Head) → IsWhat what.now h → result ≡ last_after h }
{
    match what {
        What::If(_) | What::Elif(_) => Last::If,
        What::While(_) | What::For(_, _) => Last::Loop,
        What::Try => Last::Try,
        What::Except(Some(_), _) => Last::Handler,
        What::Except(None, _) => Last::Every,
        _ => Last::Nothing,
    }
}

/// A `global` line may stand behind a line that begins this and has these tokens, where one could before.
fn may_follow(what: &What, tokens: &[Token]) -> bool
    ensures { (h : Head) → IsWhat what.now h → tokens.now ≡ head_tokens h → result ≡ lets_declare h }
{
    match what {
        What::Simple(_) => are_alone(tokens),
        What::Global(_) => true,
        _ => false,
    }
}

/// A text or `pass`, and nothing else.
fn are_alone(tokens: &[Token]) -> bool
    ensures { result ≡ alone tokens.now }
{
    match tokens.split_first() {
        Some((token, rest)) => rest.is_empty() && is_alone(&token.kind),
        None => false,
    }
}

/// A text, or `pass`.
fn is_alone(kind: &TokenKind) -> bool
    ensures { result ≡ alone_kind kind.now }
{
    match kind {
        TokenKind::Text(_) => true,
        TokenKind::Keyword(word) => *word == PASS,
        _ => false,
    }
}

/// The place of the first of these tokens.
pub(crate) fn first_of(tokens: &[Token], before: Pos) -> Pos
    ensures { result ≡ first_place before tokens.now }
{
    match tokens.first() {
        Some(token) => token.at,
        None => before,
    }
}

/// The place of the last of these tokens.
fn last_of(tokens: &[Token], before: Pos) -> Pos
    ensures { result ≡ last_place before tokens.now }
{
    match tokens.last() {
        Some(token) => token.at,
        None => before,
    }
}
