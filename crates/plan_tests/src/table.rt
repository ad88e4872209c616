use plan_document::Value;
use plan_table::*;
use std::alloc::{AllocError, Global};
use std::test::Fail;

/// Requirements with every key.
static EVERY_KEY: &str = r#"
[[requirements]]
name = "large"
executable = "java"
heap_mb = 2048
args = ["-v", ""]
properties = { b = "2", a = "1" }
variables = { "PATH:X" = "" }
debug = true
assertions = true
encoding = "US-ASCII"
keep_alive = "daemon"
"#;

fn has_properties(requirements: &Value) -> bool {
    match properties_of(requirements) {
        Some(properties) => match properties.as_slice() {
            [first, second] => first.0.as_str() == "a" && second.0.as_str() == "b",
            _ => false,
        },
        None => false,
    }
}

fn has_args(requirements: &Value) -> bool {
    match args_of(requirements) {
        [first, _] => text_of(first) == "-v",
        _ => false,
    }
}

fn is_large(requirements: &Value) -> bool {
    name_of(requirements) == "large"
        && heap_of(requirements) == 2048
        && has_args(requirements)
        && has_properties(requirements)
        && matches!(variables_of(requirements), Some(variables) if variables.len() == 1)
        && debug_of(requirements)
        && assertions_of(requirements)
        && keep_alive_of(requirements) == "daemon"
}

// Whether the document has the large requirements, read by every key.
fn has_large(document: &Value) -> bool {
    match requirements_of(document) {
        [large] => is_large(large),
        _ => false,
    }
}

#[test]
fn every_key_of_requirements_is_read(rt: HostRuntime) -> Result<(), Fail> {
    let document = read_document(rt.alloc(), EVERY_KEY.as_bytes())?;
    assert!(rt; has_large(&document));
    Ok(())
}

/// A plan without the keys that have a default.
static NO_KEY: &str = r#"
task = [{ name = "t", project = "p", action = [{ item = [{ do = "lines", file = "a" }] }] }]
requirements = [{ name = "r" }]
"#;

fn is_plain_item(item: &Value) -> bool {
    isolation_of(item) == "none" && requirements_name_of(item).is_none() && needle_of(item) == ""
}

fn is_plain_action(action: &Value) -> bool {
    wait_of(action) == "release_and_reacquire"
        && fetch_of(action).is_none()
        && matches!(items_of(action).first(), Some(item) if is_plain_item(item))
}

fn is_plain_task(task: &Value) -> bool {
    after_of(task).is_empty()
        && !all_projects_of(task)
        && matches!(actions_of(task).first(), Some(action) if is_plain_action(action))
}

fn are_plain(requirements: &Value) -> bool {
    heap_of(requirements) == 512
        && args_of(requirements).is_empty()
        && properties_of(requirements).is_none()
        && variables_of(requirements).is_none()
        && !debug_of(requirements)
        && !assertions_of(requirements)
        && keep_alive_of(requirements) == "session"
}

fn is_plain(document: &Value) -> bool {
    projects_of(document).is_empty()
        && matches!(tasks_of(document).first(), Some(task) if is_plain_task(task))
        && matches!(requirements_of(document).first(), Some(plain) if are_plain(plain))
}

#[test]
fn absent_keys_have_their_defaults(rt: HostRuntime) -> Result<(), Fail> {
    let document = read_document(rt.alloc(), NO_KEY.as_bytes())?;
    assert!(rt; table_refusal(&document).is_none() && is_plain(&document));
    Ok(())
}

/// Two tasks that say whether they ask for all projects.
static SAID: &str = r#"
task = [
{ name = "t", project = "p", all_projects = true },
{ name = "u", project = "p", all_projects = false },
]
"#;

fn says_both(document: &Value) -> bool {
    match tasks_of(document) {
        [asks, asks_not] => all_projects_of(asks) && !all_projects_of(asks_not),
        _ => false,
    }
}

#[test]
fn tasks_say_whether_they_ask_for_all_projects(rt: HostRuntime) -> Result<(), Fail> {
    let document = read_document(rt.alloc(), SAID.as_bytes())?;
    assert!(rt; table_refusal(&document).is_none() && says_both(&document));
    Ok(())
}

/// Keys that ask for all projects by a value of another type.
static NOT_SAID: [&str; 5] = [
    "task = [{ name = 't', project = 'p', all_projects = 1 }]",
    "task = [{ name = 't', project = 'p', all_projects = 'true' }]",
    "task = [{ name = 't', project = 'p', all_projects = [true] }]",
    "task = [{ name = 't', project = 'p', all_projects = {} }]",
    "task = [{ name = 't', project = 'p', all_projects = 1979-05-27 }]",
];

/// The key in tables that haven't it.
static NO_KEY_THERE: [&str; 4] = [
    "all_projects = true",
    "project = [{ name = 'p', all_projects = true }]",
    "requirements = [{ name = 'r', all_projects = true }]",
    "task = [{ name = 't', project = 'p', all-projects = true }]",
];

fn is_wrong_type(refusal: Option<PlanRefusal>) -> bool {
    matches!(refusal, Some(PlanRefusal::WrongType(place)) if place.number == 0)
}

fn is_unknown(refusal: Option<PlanRefusal>) -> bool {
    matches!(refusal, Some(PlanRefusal::UnknownKey(place)) if place.number == 0)
}

// How the document of a text is refused, if it is.
fn refusal_of(alloc: Global, text: &str) -> Result<Option<PlanRefusal>, PlanFail> {
    let document = read_document(alloc, text.as_bytes())?;
    Ok(table_refusal(&document))
}

#[test]
fn whether_all_projects_are_asked_for_is_a_boolean_of_a_task(rt: HostRuntime) -> Result<(), Fail> {
    for text in &NOT_SAID {
        assert!(rt; is_wrong_type(refusal_of(rt.alloc(), text)?));
    }
    for text in &NO_KEY_THERE {
        assert!(rt; is_unknown(refusal_of(rt.alloc(), text)?));
    }
    Ok(())
}

// Takes the executable and the encoding of requirements, and says whether they are these.
fn has_texts(
    alloc: Global,
    requirements: &mut Value,
    executable: &str,
    encoding: &str,
) -> Result<bool, AllocError> {
    let has_executable = take_executable(alloc, requirements)?.as_str() == executable;
    let has_encoding = take_encoding(alloc, requirements)?.as_str() == encoding;
    Ok(has_executable && has_encoding)
}

// Takes the lists of the large requirements, and says whether they have so many members as are written.
fn has_lists(alloc: Global, large: &mut Value) -> bool {
    take_args(alloc, large).len() == 2
        && take_properties(alloc, large).len() == 2
        && take_variables(alloc, large).len() == 1
}

// Whether the texts and the lists of the large requirements are taken, and its name stays.
fn are_taken(alloc: Global, taken: &mut [Value]) -> Result<bool, AllocError> {
    match taken {
        [large] => Ok(
            has_texts(alloc, large, "java", "US-ASCII")?
                && has_lists(alloc, large)
                && name_of(large) == "large"
                && args_of(large).is_empty(),
        ),
        _ => Ok(false),
    }
}

#[test]
fn texts_of_requirements_are_taken(rt: HostRuntime) -> Result<(), Fail> {
    let mut document = read_document(rt.alloc(), EVERY_KEY.as_bytes())?;
    let mut taken = take_requirements(rt.alloc(), &mut document);
    assert!(rt; requirements_of(&document).is_empty() && are_taken(rt.alloc(), &mut taken)?);
    Ok(())
}

// Whether the texts that requirements don't say are taken as their defaults.
fn are_defaults(alloc: Global, taken: &mut [Value]) -> Result<bool, AllocError> {
    match taken {
        [plain] => has_texts(alloc, plain, "self", "UTF-8"),
        _ => Ok(false),
    }
}

// Whether no projects and one task are taken.
fn are_tables_taken(alloc: Global, document: &mut Value) -> bool {
    take_projects(alloc, document).is_empty() && take_tasks(alloc, document).len() == 1
}

#[test]
fn absent_texts_are_taken_as_their_defaults(rt: HostRuntime) -> Result<(), Fail> {
    let mut document = read_document(rt.alloc(), NO_KEY.as_bytes())?;
    let mut taken = take_requirements(rt.alloc(), &mut document);
    assert!(rt;
        are_tables_taken(rt.alloc(), &mut document) && are_defaults(rt.alloc(), &mut taken)?
    );
    Ok(())
}
