//! Requirements that the tests ask for.
use daemon_requirements::{Pair, RequirementFields, Requirements};
use item_actions::{KeepAlive, Text};
use std::alloc::{AllocError, Global};

/// Names and their values.
type Pairs = &'static [(&'static str, &'static str)];

/// What a test asks for.
#[derive(Clone, Copy)]
pub(crate) struct Asked {
    pub(crate) program: &'static str,
    pub(crate) heap_mb: u32,
    pub(crate) args: &'static [&'static str],
    pub(crate) properties: Pairs,
    pub(crate) variables: Pairs,
    pub(crate) encoding: &'static str,
    pub(crate) keep: KeepAlive,
}

/// The program `self` with 512 MB and no lists.
pub(crate) const PLAIN: Asked = Asked {
    program: "self",
    heap_mb: 512,
    args: &[],
    properties: &[],
    variables: &[],
    encoding: "UTF-8",
    keep: KeepAlive::Session,
};

fn texts(alloc: Global, words: &[&str]) -> Result<Vec<Text>, AllocError> {
    let mut texts = Vec::new(alloc);
    for word in words {
        texts.push(Text::from_str(alloc, word)?)?;
    }
    Ok(texts)
}

fn pairs(alloc: Global, words: &[(&str, &str)]) -> Result<Vec<Pair>, AllocError> {
    let mut pairs = Vec::new(alloc);
    for (name, value) in words {
        let name = Text::from_str(alloc, name)?;
        let value = Text::from_str(alloc, value)?;
        pairs.push(Pair { name, value })?;
    }
    Ok(pairs)
}

/// The fields of what is asked for.
pub(crate) fn fields(alloc: Global, asked: &Asked) -> Result<RequirementFields, AllocError> {
    let executable = Text::from_str(alloc, asked.program)?;
    let encoding = Text::from_str(alloc, asked.encoding)?;
    let args = texts(alloc, asked.args)?;
    let properties = pairs(alloc, asked.properties)?;
    let variables = pairs(alloc, asked.variables)?;
    Ok(RequirementFields {
        executable,
        heap_mb: asked.heap_mb,
        args,
        properties,
        variables,
        debug: false,
        assertions: false,
        encoding,
        keep: asked.keep,
    })
}

/// The requirements that are asked for. Fields that are refused end a test as want of memory does.
pub(crate) fn requirements(alloc: Global, asked: &Asked) -> Result<Requirements, AllocError> {
    match Requirements::of(fields(alloc, asked)?) {
        Ok(requirements) => Ok(requirements),
        Err(_) => Err(AllocError),
    }
}

/// The requirements of this heap.
pub(crate) fn requirements_of(alloc: Global, heap_mb: u32) -> Result<Requirements, AllocError> {
    requirements(alloc, &Asked { heap_mb, ..PLAIN })
}
