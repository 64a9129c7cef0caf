//! The scripts for the shells, each cut where the rows of the tables belong: they are one text between quotes. A row is
//! `SUBCOMMAND|WORD|VALUE|WORDS|HELP`. One without SUBCOMMAND has a first word. VALUE is the name of a value: of that of an option, which
//! is WORD, or of an argument without a name of its own. It is a file where the name is `FILE`, and one of WORDS where there are any.

/// For bash. A word for which nothing is found is completed as the name of a file.
pub(crate) const BASH: (&str, &str) = (
    "# The words of postmig, for bash.
_postmig_rows='",
    r#"'

_postmig() {
  local of word value values help subcommand= found=() current=${COMP_WORDS[COMP_CWORD]} before=${COMP_WORDS[COMP_CWORD - 1]}
  [ "$COMP_CWORD" -lt 2 ] || subcommand=${COMP_WORDS[1]}
  while IFS='|' read -r of word value values help; do
    [ "$of" = "$subcommand" ] || continue
    if [ "$word" = "$before" ] && [ -n "$value" ]; then
      [ "$value" = FILE ] || compopt +o default
      found=($values)
      break
    elif [[ $word != -* && -n $value ]]; then
      found+=($values)
    elif [[ $word != -* || $current == -* ]]; then
      found+=("$word")
    fi
  done <<< "$_postmig_rows"
  COMPREPLY=($(compgen -W "${found[*]}" -- "$current"))
}
complete -o default -F _postmig postmig
"#,
);

/// For zsh, read as a file of its functions or by `source`.
pub(crate) const ZSH: (&str, &str) = (
    "#compdef postmig
# The words of postmig, for zsh.
_postmig_rows='",
    r#"'

_postmig() {
  local of word value values help subcommand= files= before=$words[CURRENT-1]
  local -a found
  (( CURRENT == 2 )) || subcommand=$words[2]
  while IFS='|' read -r of word value values help; do
    [[ $of == $subcommand && -n $word ]] || continue
    if [[ $word == $before && -n $value ]]; then
      found=(${=values}) files=$value
      break
    elif [[ $word != -* && -n $value ]]; then
      found+=(${=values}) files=$value
    elif [[ $word != -* || $words[CURRENT] == -* ]]; then
      found+=("$word:$help")
    fi
  done <<< $_postmig_rows
  [[ $files != FILE ]] || _files
  _describe word found
}
if [[ $funcstack[1] == _postmig ]]; then
  _postmig "$@"
else
  compdef _postmig postmig
fi
"#,
);

/// For fish.
pub(crate) const FISH: (&str, &str) = (
    "# The words of postmig, for fish.
set -g __postmig_rows '",
    r#"'

function __postmig_words
    set -l before (commandline -opc)
    set -l subcommand ''
    set -q before[2]; and set subcommand $before[2]
    for row in (string split \n -- $__postmig_rows)
        set -l part (string split '|' -- $row)
        set -q part[5]; and test "$part[1]" = "$subcommand"; or continue
        if test "$part[2]" = "$before[-1]" -a -n "$part[3]"
            __postmig_values $part
            return
        end
    end
    for row in (string split \n -- $__postmig_rows)
        set -l part (string split '|' -- $row)
        set -q part[5]; and test "$part[1]" = "$subcommand"; or continue
        if string match -qv -- '-*' $part[2]; and test -n "$part[3]"
            __postmig_values $part
        else if string match -qv -- '-*' $part[2]; or string match -q -- '-*' (commandline -ct)
            printf '%s\t%s\n' $part[2] $part[5]
        end
    end
end

function __postmig_values
    string split -n ' ' -- $argv[4]
    test "$argv[3]" = FILE; and __fish_complete_path (commandline -ct)
end
complete -c postmig -f -a '(__postmig_words)'
"#,
);
