//! Logins in texts.

ghost use Rattle.std.specs.Prelude.{◌≡◌, option_map};
ghost use Rattle.command_line.specs.Job as spec;

use crate::job::Login;

/// The login in U:P, which is split at the first colon. None where there is no colon.
pub(crate) fn login_in<'a>(text: &'a str) -> Option<Login<'a>>
    ensures { option_map spec.plain_login result ≡ spec.login_in text.now }
{
    let (user, password) = text.split_once(':')?;
    Some(Login { user, password })
}

/// The login in the text of a file, which is one line U:P. A line feed at its end, and a carriage return
/// before that, do not count. None where anything stands behind the line, or no colon is in it.
pub fn login_in_file<'a>(text: &'a str) -> Option<Login<'a>>
    ensures { option_map spec.plain_login result ≡ spec.login_in_file text.now }
{
    login_in(line_in(text)?)
}

// The one line of a text.
fn line_in<'a>(text: &'a str) -> Option<&'a str>
    ensures { option_map (λ l. l.now) result ≡ spec.line_in text.now }
{
    match text.split_once('\n') {
        None => Some(text),
        Some((line, rest)) if rest.is_empty() => Some(without_return(line)),
        Some(_) => None,
    }
}

// A line without the carriage return at its end.
fn without_return<'a>(line: &'a str) -> &'a str
    ensures { result.now ≡ spec.without_return line.now }
{
    match line.strip_suffix('\r') {
        Some(front) => front,
        None => line,
    }
}
